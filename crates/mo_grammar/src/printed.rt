//! Productions that stand in another form than the printed one, and spell the same. Each function does nothing: its
//! contract is the law.
ghost use Rattle.mo_grammar.specs.Symbols.{Primaries, ImportNames, Arguments, MoreArguments, ForEquations, WhenEquations, IfEquations, ElseEquations, Compositions, Sections, SectionEquations};
ghost use Rattle.mo_grammar.specs.Expressions.{printed_args, printed_given, array};
ghost use Rattle.mo_grammar.specs.Classes.{printed_equality, equality_or_call, printed_branched_else, printed_import, class_prefixes, short_spec, class_spec, external_call, printed_for_equations, printed_when_equations, printed_else_equations};
ghost use Rattle.mo_grammar.specs.Printed.{printed_primary, printed_array, printed_class_prefixes, printed_short_spec, printed_class_spec, printed_external_call, printed_sections, printed_section_equations, printed_composition};
ghost use Rattle.mo_grammar.specs.Language.{Spells, SpelledByForm, SpellAlike};

/// `simple "=" expr | reference call_args`, as a simple expression behind which `=` may be left out.
pub fn equalities()
    ensures { SpellAlike (SpelledByForm equality_or_call) (SpelledByForm printed_equality) }
{}

/// `{equation_item ";"} end for`, `{equation_item ";"} {elsewhen expr then {equation_item ";"}} end when` and
/// `{equation_item ";"} {elseif expr then {equation_item ";"}} [else {equation_item ";"}] end if`, as lists whose end two
/// tokens tell.
pub fn equation_lists()
    ensures for_equations { SpellAlike (Spells ForEquations) (SpelledByForm printed_for_equations) }
    ensures when_equations { SpellAlike (Spells WhenEquations) (SpelledByForm printed_when_equations) }
    ensures if_equations { SpellAlike (Spells IfEquations) (SpelledByForm printed_branched_else) }
    ensures else_equations { SpellAlike (Spells ElseEquations) (SpelledByForm printed_else_equations) }
{}

/// The arguments of a call, `expr for indices | arg {"," arg} {"," named} | named {"," named}`, and what follows a comma in
/// them, as productions that lead back to themselves.
pub fn arguments()
    ensures call_arguments { SpellAlike (Spells Arguments) (SpelledByForm printed_args) }
    ensures more_arguments { SpellAlike (Spells MoreArguments) (SpelledByForm printed_given) }
{}

/// `name ["." "*" | ".*" | "." "{" IDENT {"," IDENT} "}"]` of an import, as a production that leads back to itself.
pub fn imports()
    ensures { SpellAlike (Spells ImportNames) (SpelledByForm printed_import) }
{}

/// `number | STRING | false | true | (reference | der | initial | pure) call_args | reference | "(" outputs ")" |
/// "[" exprs {";" exprs} "]" | "{" array_args "}" | end`, with one beginning for a reference and the call of what it names; and
/// `"{" (expr for indices | exprs) "}"`, with one beginning for both lists of elements.
pub fn primaries()
    ensures primary { SpellAlike (Spells Primaries) (SpelledByForm printed_primary) }
    ensures array { SpellAlike (SpelledByForm array) (SpelledByForm printed_array) }
{}

/// The kind of a class, with `[operator] record`, `[expandable] connector` and `[pure | impure] [operator] function` each as it
/// begins; and what stands behind a class's kind, with one beginning for all that has `IDENT "="`.
pub fn class_heads()
    ensures class_prefixes { SpellAlike (SpelledByForm class_prefixes) (SpelledByForm printed_class_prefixes) }
    ensures short_spec { SpellAlike (SpelledByForm short_spec) (SpelledByForm printed_short_spec) }
    ensures class_spec { SpellAlike (SpelledByForm class_spec) (SpelledByForm printed_class_spec) }
{}

/// `[reference "="] IDENT "(" [expr {"," expr}] ")"` of an external clause, as two branches that the second token tells apart.
pub fn external_calls()
    ensures { SpellAlike (SpelledByForm external_call) (SpelledByForm printed_external_call) }
{}

/// `elements { public elements | protected elements | [initial] equation {equation_item ";"} |
/// [initial] algorithm {statement ";"} } [external ..] [annotation_part ";"] end IDENT`, what follows its first elements, and what
/// follows `equation` in it, as productions that lead back to themselves, with two branches for `[initial]`.
pub fn compositions()
    ensures composition { SpellAlike (Spells Compositions) (SpelledByForm printed_composition) }
    ensures sections { SpellAlike (Spells Sections) (SpelledByForm printed_sections) }
    ensures section_equations { SpellAlike (Spells SectionEquations) (SpelledByForm printed_section_equations) }
{}
