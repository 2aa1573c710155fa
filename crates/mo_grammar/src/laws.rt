//! The laws of the grammar, for every production of it. Each function does nothing: its contract is the law.
ghost use Rattle.std.specs.Prelude.{◌≡◌, List, ◌++◌, true};
ghost use Rattle.mo_syntax.specs.SoundTree.{Naming};
ghost use Rattle.mo_grammar.specs.declared.fault.Fault.TheVariants.{Misplaced, Misnamed};
ghost use Rattle.mo_grammar.specs.Lexeme.{Lexeme};
ghost use Rattle.mo_grammar.specs.Grammar.{Limits};
ghost use Rattle.mo_grammar.specs.Productions.{rule};
ghost use Rattle.mo_grammar.specs.Reading.{AreRight, stuck, unfinished};
ghost use Rattle.mo_grammar.specs.Symbols.{Symbol};
ghost use Rattle.mo_grammar.specs.Tables.{tables};
ghost use Rattle.mo_grammar.specs.Classless.{is_classless};
ghost use Rattle.mo_grammar.specs.Naming.{SpellsSoundFiles};
ghost use Rattle.mo_grammar.specs.Language.{Begins, EndsBeforeNames, reads, CanBeCompleted, FrontsBegin, HaltsAtImpossible, HaltsUnfinished, HasOneImpossible, ReadsEachLongest, ReadsOnlyLongest, ReadsWithoutClasses, SpellsOneTree};

/// What the tables of the grammar say of its productions is right: the next token, or the next two where a choice says so, tell every choice.
pub fn tables_are_right()
    ensures { AreRight tables rule }
{}

/// Tokens spell at most one tree of a production, whatever the limits are.
pub fn one_tree()
    ensures { (x : Symbol) → SpellsOneTree x }
{}

/// What begins a production begins it up to each of its tokens.
pub fn fronts_begin()
    ensures { (x : Symbol) (l : Limits) (front rest : List Lexeme) → Begins x l (front ++ rest) → Begins x l front }
{}

/// What begins a production within limits is the front of a list that spells it where nesting is not limited, and each
/// front of what is spelled begins it.
pub fn beginnings_extend()
    ensures extends { (x : Symbol) (l : Limits) (tokens : List Lexeme) → Begins x l tokens → CanBeCompleted x l tokens }
    ensures fronts { (x : Symbol) → FrontsBegin x }
{}

/// Reading comes to an end.
pub fn reading_ends()
    ensures { (x : Symbol) (l : Limits) (tokens : List Lexeme) → reads x l tokens ≡ unfinished → ⊥ }
{}

/// What is read is the longest run of the tokens that begins the production, and it is spelled within the limits. Where
/// the longest run is spelled within the limits, it is read.
pub fn longest_spelling()
    ensures sound { (x : Symbol) → ReadsOnlyLongest x }
    ensures complete { (x : Symbol) → EndsBeforeNames x → ReadsEachLongest x }
{}

/// Where reading is stuck, what it took begins the production within the limits, and the next token is impossible behind
/// it, for the reason that the fault gives.
pub fn first_impossible()
    ensures stuck { (x : Symbol) → HaltsAtImpossible x }
    ensures one { (x : Symbol) → HasOneImpossible x }
{}

/// Where a token is misplaced, or has another name than its class, what stands before it is the longest run of the tokens
/// that begins the production, and that is no whole spelling.
pub fn unfinished_front()
    ensures misplaced { (x : Symbol) → EndsBeforeNames x → HaltsUnfinished Misplaced x }
    ensures misnamed { (x : Symbol) → EndsBeforeNames x → HaltsUnfinished Misnamed x }
{}

/// What holds no class is read in the same way whatever the limit of classes and the name behind `end` are.
pub fn classes_leave_alone()
    ensures { (x : Symbol) → is_classless x ≡ true → ReadsWithoutClasses x }
{}

/// A file that tokens spell is sound, and each name in it is that of an identifier: it passes each test that the identifiers
/// among the tokens pass.
pub fn files_are_sound()
    ensures { (is_name : Naming) → SpellsSoundFiles is_name }
{}
