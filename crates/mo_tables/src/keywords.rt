//! The reserved words of Modelica (Modelica Language Specification 3.5, section 2.3.3).

ghost use Rattle.std.specs.Prelude.{◌≡◌};
ghost use Rattle.mo_tables.specs.Words.{keywords, code_in};

use super::table::{Row, find};

/// The code of `algorithm`.
pub const ALGORITHM: u16 = 0;
/// The code of `and`.
pub const AND: u16 = 1;
/// The code of `annotation`.
pub const ANNOTATION: u16 = 2;
/// The code of `block`.
pub const BLOCK: u16 = 3;
/// The code of `break`.
pub const BREAK: u16 = 4;
/// The code of `class`.
pub const CLASS: u16 = 5;
/// The code of `connect`.
pub const CONNECT: u16 = 6;
/// The code of `connector`.
pub const CONNECTOR: u16 = 7;
/// The code of `constant`.
pub const CONSTANT: u16 = 8;
/// The code of `constrainedby`.
pub const CONSTRAINEDBY: u16 = 9;
/// The code of `der`.
pub const DER: u16 = 10;
/// The code of `discrete`.
pub const DISCRETE: u16 = 11;
/// The code of `each`.
pub const EACH: u16 = 12;
/// The code of `else`.
pub const ELSE: u16 = 13;
/// The code of `elseif`.
pub const ELSEIF: u16 = 14;
/// The code of `elsewhen`.
pub const ELSEWHEN: u16 = 15;
/// The code of `encapsulated`.
pub const ENCAPSULATED: u16 = 16;
/// The code of `end`.
pub const END: u16 = 17;
/// The code of `enumeration`.
pub const ENUMERATION: u16 = 18;
/// The code of `equation`.
pub const EQUATION: u16 = 19;
/// The code of `expandable`.
pub const EXPANDABLE: u16 = 20;
/// The code of `extends`.
pub const EXTENDS: u16 = 21;
/// The code of `external`.
pub const EXTERNAL: u16 = 22;
/// The code of `false`.
pub const FALSE: u16 = 23;
/// The code of `final`.
pub const FINAL: u16 = 24;
/// The code of `flow`.
pub const FLOW: u16 = 25;
/// The code of `for`.
pub const FOR: u16 = 26;
/// The code of `function`.
pub const FUNCTION: u16 = 27;
/// The code of `if`.
pub const IF: u16 = 28;
/// The code of `import`.
pub const IMPORT: u16 = 29;
/// The code of `impure`.
pub const IMPURE: u16 = 30;
/// The code of `in`.
pub const IN: u16 = 31;
/// The code of `initial`.
pub const INITIAL: u16 = 32;
/// The code of `inner`.
pub const INNER: u16 = 33;
/// The code of `input`.
pub const INPUT: u16 = 34;
/// The code of `loop`.
pub const LOOP: u16 = 35;
/// The code of `model`.
pub const MODEL: u16 = 36;
/// The code of `not`.
pub const NOT: u16 = 37;
/// The code of `operator`.
pub const OPERATOR: u16 = 38;
/// The code of `or`.
pub const OR: u16 = 39;
/// The code of `outer`.
pub const OUTER: u16 = 40;
/// The code of `output`.
pub const OUTPUT: u16 = 41;
/// The code of `package`.
pub const PACKAGE: u16 = 42;
/// The code of `parameter`.
pub const PARAMETER: u16 = 43;
/// The code of `partial`.
pub const PARTIAL: u16 = 44;
/// The code of `protected`.
pub const PROTECTED: u16 = 45;
/// The code of `public`.
pub const PUBLIC: u16 = 46;
/// The code of `pure`.
pub const PURE: u16 = 47;
/// The code of `record`.
pub const RECORD: u16 = 48;
/// The code of `redeclare`.
pub const REDECLARE: u16 = 49;
/// The code of `replaceable`.
pub const REPLACEABLE: u16 = 50;
/// The code of `return`.
pub const RETURN: u16 = 51;
/// The code of `stream`.
pub const STREAM: u16 = 52;
/// The code of `then`.
pub const THEN: u16 = 53;
/// The code of `true`.
pub const TRUE: u16 = 54;
/// The code of `type`.
pub const TYPE: u16 = 55;
/// The code of `when`.
pub const WHEN: u16 = 56;
/// The code of `while`.
pub const WHILE: u16 = 57;
/// The code of `within`.
pub const WITHIN: u16 = 58;

/// The reserved words in the order of their bytes; a word's code is its place.
pub const KEYWORDS: [Row; 59] = rows![
    "algorithm" ALGORITHM,
    "and" AND,
    "annotation" ANNOTATION,
    "block" BLOCK,
    "break" BREAK,
    "class" CLASS,
    "connect" CONNECT,
    "connector" CONNECTOR,
    "constant" CONSTANT,
    "constrainedby" CONSTRAINEDBY,
    "der" DER,
    "discrete" DISCRETE,
    "each" EACH,
    "else" ELSE,
    "elseif" ELSEIF,
    "elsewhen" ELSEWHEN,
    "encapsulated" ENCAPSULATED,
    "end" END,
    "enumeration" ENUMERATION,
    "equation" EQUATION,
    "expandable" EXPANDABLE,
    "extends" EXTENDS,
    "external" EXTERNAL,
    "false" FALSE,
    "final" FINAL,
    "flow" FLOW,
    "for" FOR,
    "function" FUNCTION,
    "if" IF,
    "import" IMPORT,
    "impure" IMPURE,
    "in" IN,
    "initial" INITIAL,
    "inner" INNER,
    "input" INPUT,
    "loop" LOOP,
    "model" MODEL,
    "not" NOT,
    "operator" OPERATOR,
    "or" OR,
    "outer" OUTER,
    "output" OUTPUT,
    "package" PACKAGE,
    "parameter" PARAMETER,
    "partial" PARTIAL,
    "protected" PROTECTED,
    "public" PUBLIC,
    "pure" PURE,
    "record" RECORD,
    "redeclare" REDECLARE,
    "replaceable" REPLACEABLE,
    "return" RETURN,
    "stream" STREAM,
    "then" THEN,
    "true" TRUE,
    "type" TYPE,
    "when" WHEN,
    "while" WHILE,
    "within" WITHIN,
];

/// The code of a reserved word, or none where the text is no reserved word.
#[tactic(auto, unfolding(crate::specs::Words::keywords))]
pub fn keyword(text: &[u8]) -> Option<u16>
    ensures { result ≡ code_in keywords text.now }
{
    find(&KEYWORDS, text)
}
