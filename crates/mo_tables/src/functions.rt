//! The functions that expressions of this profile may call (Modelica Language Specification 3.5, sections 3.7 and 10.3).

ghost use Rattle.std.specs.Prelude.{◌≡◌};
ghost use Rattle.mo_tables.specs.Words.{functions, code_in};

use super::table::{Row, find};

/// The code of `abs`.
pub const ABS: u16 = 0;
/// The code of `acos`.
pub const ACOS: u16 = 1;
/// The code of `asin`.
pub const ASIN: u16 = 2;
/// The code of `atan`.
pub const ATAN: u16 = 3;
/// The code of `atan2`.
pub const ATAN2: u16 = 4;
/// The code of `cos`.
pub const COS: u16 = 5;
/// The code of `cosh`.
pub const COSH: u16 = 6;
/// The code of `cross`.
pub const CROSS: u16 = 7;
/// The code of `div`.
pub const DIV: u16 = 8;
/// The code of `exp`.
pub const EXP: u16 = 9;
/// The code of `fill`.
pub const FILL: u16 = 10;
/// The code of `identity`.
pub const IDENTITY: u16 = 11;
/// The code of `log`.
pub const LOG: u16 = 12;
/// The code of `log10`.
pub const LOG10: u16 = 13;
/// The code of `max`.
pub const MAX: u16 = 14;
/// The code of `min`.
pub const MIN: u16 = 15;
/// The code of `mod`.
pub const MOD: u16 = 16;
/// The code of `ndims`.
pub const NDIMS: u16 = 17;
/// The code of `noEvent`.
pub const NO_EVENT: u16 = 18;
/// The code of `ones`.
pub const ONES: u16 = 19;
/// The code of `product`.
pub const PRODUCT: u16 = 20;
/// The code of `rem`.
pub const REM: u16 = 21;
/// The code of `sin`.
pub const SIN: u16 = 22;
/// The code of `sinh`.
pub const SINH: u16 = 23;
/// The code of `size`.
pub const SIZE: u16 = 24;
/// The code of `sqrt`.
pub const SQRT: u16 = 25;
/// The code of `sum`.
pub const SUM: u16 = 26;
/// The code of `tan`.
pub const TAN: u16 = 27;
/// The code of `tanh`.
pub const TANH: u16 = 28;
/// The code of `transpose`.
pub const TRANSPOSE: u16 = 29;
/// The code of `zeros`.
pub const ZEROS: u16 = 30;

/// The predefined functions in the order of their bytes; a function's code is its place.
pub const FUNCTIONS: [Row; 31] = rows![
    "abs" ABS,
    "acos" ACOS,
    "asin" ASIN,
    "atan" ATAN,
    "atan2" ATAN2,
    "cos" COS,
    "cosh" COSH,
    "cross" CROSS,
    "div" DIV,
    "exp" EXP,
    "fill" FILL,
    "identity" IDENTITY,
    "log" LOG,
    "log10" LOG10,
    "max" MAX,
    "min" MIN,
    "mod" MOD,
    "ndims" NDIMS,
    "noEvent" NO_EVENT,
    "ones" ONES,
    "product" PRODUCT,
    "rem" REM,
    "sin" SIN,
    "sinh" SINH,
    "size" SIZE,
    "sqrt" SQRT,
    "sum" SUM,
    "tan" TAN,
    "tanh" TANH,
    "transpose" TRANSPOSE,
    "zeros" ZEROS,
];

/// The code of a predefined function, or none where the text names none.
#[tactic(auto, unfolding(crate::specs::Words::functions))]
pub fn function(text: &[u8]) -> Option<u16>
    ensures { result ≡ code_in functions text.now }
{
    find(&FUNCTIONS, text)
}
