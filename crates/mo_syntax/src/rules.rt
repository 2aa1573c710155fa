//! The rules that files may break, each by its printed number. docs/RULES.md says what breaks each of them.

/// File too long.
pub const FILE_TOO_LONG: u8 = 1;
/// Not UTF-8.
pub const NOT_UTF_8: u8 = 2;
/// Bad character.
pub const BAD_CHARACTER: u8 = 3;
/// Text without end.
pub const TEXT_WITHOUT_END: u8 = 4;
/// Literal too wide.
pub const LITERAL_TOO_WIDE: u8 = 5;
/// Token cannot stand here.
pub const IMPOSSIBLE_TOKEN: u8 = 6;
/// End name differs.
pub const END_NAME_DIFFERS: u8 = 7;
/// Nesting too deep.
pub const NESTING_TOO_DEEP: u8 = 8;
/// Name declared twice.
pub const DECLARED_TWICE: u8 = 9;
/// Within names no class.
pub const WITHIN_NAMES_NO_CLASS: u8 = 10;
/// Class not found.
pub const CLASS_NOT_FOUND: u8 = 11;
/// Name not found.
pub const NAME_NOT_FOUND: u8 = 12;
/// Wrong kind of name.
pub const WRONG_KIND_OF_NAME: u8 = 13;
/// Name imported twice.
pub const IMPORTED_TWICE: u8 = 14;
/// Not a constant.
pub const NOT_A_CONSTANT: u8 = 15;
/// Not a package.
pub const NOT_A_PACKAGE: u8 = 16;
/// Protected.
pub const PROTECTED_ELEMENT: u8 = 17;
/// Base class cycle.
pub const BASE_CLASS_CYCLE: u8 = 18;
/// Inherited elements clash.
pub const INHERITED_ELEMENTS_CLASH: u8 = 19;
/// Modified element not found.
pub const MODIFIED_ELEMENT_NOT_FOUND: u8 = 20;
/// Modified twice.
pub const MODIFIED_TWICE: u8 = 21;
/// Final.
pub const FINAL_MODIFIED: u8 = 22;
/// Each.
pub const WRONG_EACH: u8 = 23;
/// Replaceable.
pub const WRONG_REPLACEABLE: u8 = 24;
/// Not compatible.
pub const NOT_COMPATIBLE: u8 = 25;
/// Partial.
pub const PARTIAL_CLASS: u8 = 26;
/// Instance too deep.
pub const INSTANCE_TOO_DEEP: u8 = 27;
/// No value.
pub const NO_VALUE: u8 = 28;
/// Reference chain too long.
pub const REFERENCE_CHAIN_TOO_LONG: u8 = 29;
/// Integer arithmetic.
pub const INTEGER_ARITHMETIC: u8 = 30;
/// Size.
pub const WRONG_SIZE: u8 = 31;
/// Subscript.
pub const SUBSCRIPT_OUTSIDE: u8 = 32;
/// Type.
pub const WRONG_TYPE: u8 = 33;
/// Outside the profile.
pub const OUTSIDE_PROFILE: u8 = 34;
/// Branch counts differ.
pub const BRANCH_COUNTS_DIFFER: u8 = 35;
/// Connect under an open condition.
pub const CONNECT_UNDER_OPEN_CONDITION: u8 = 36;
/// Not a connector.
pub const NOT_A_CONNECTOR: u8 = 37;
/// Connectors differ.
pub const CONNECTORS_DIFFER: u8 = 38;
/// Enumeration.
pub const WRONG_ENUMERATION: u8 = 39;
/// Condition not Boolean.
pub const CONDITION_NOT_BOOLEAN: u8 = 40;
/// Flat model too large.
pub const FLAT_MODEL_TOO_LARGE: u8 = 41;
/// Incidence too large.
pub const INCIDENCE_TOO_LARGE: u8 = 42;
/// Derivative of an input.
pub const DERIVATIVE_OF_INPUT: u8 = 43;
/// Result too large.
pub const RESULT_TOO_LARGE: u8 = 44;
/// No inner.
pub const NO_INNER: u8 = 45;
/// Inner differs.
pub const INNER_DIFFERS: u8 = 46;
