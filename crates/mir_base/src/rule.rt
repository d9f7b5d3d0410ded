ghost use Rattle.std.specs.Prelude.{◌≡◌};

use crate::Pos;

/// The typing rules, by the numbers under which a refusal names them to a user.
#[derive(Clone, Copy, Debug)]
pub enum Rule {
    T01,
    T02,
    T03,
    T04,
    T05,
    T06,
    T07,
    T08,
    T09,
    T10,
    T11,
    T12,
    T13,
    T14,
    T15,
    T16,
    T17,
    T18,
    T19,
    T20,
}

/// Why a program is not typed.
#[derive(Clone, Copy, Debug)]
pub enum RuleError {
    /// The program breaks a rule at a place.
    Broken { rule: Rule, at: Pos },
    /// Memory was wanted and could not be had.
    Memory,
}

impl RuleError {
    /// What a call answers where a number would pass 32 bits. Nothing was allocated; a text within the limits comes to no
    /// such number.
    pub fn past_32_bits() -> RuleError
        ensures { result ≡ RuleError.Memory }
    {
        RuleError::Memory
    }

    /// What a call answers where it never comes, which its own contract cannot tell.
    pub fn cannot_be() -> RuleError
        ensures { result ≡ RuleError.Memory }
    {
        RuleError::Memory
    }
}
