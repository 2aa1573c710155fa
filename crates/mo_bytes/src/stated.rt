//! The laws of bytes. Each function does nothing: its contract is the law.
ghost use Rattle.mo_bytes.specs.Laws.{LadderRefusalsStand, LongReportsStand, ModelsStand, RefusalsStand, ToldRefusalsStand, VerdictRefusalsStand};

/// The first rule that named files break, asked for a class, is broken at a byte of one of them, from 0 to its length, or it is rule 11 on
/// the command line.
pub fn refusals_stand()
    ensures { RefusalsStand }
{}

/// The flat model that named files give, its variables and its equations stand at bytes of the files.
pub fn models_stand()
    ensures { ModelsStand }
{}

/// The first rule that is broken on the way to what is asked for of named files is broken at such a byte, or it is rule 11 on the command
/// line.
pub fn told_refusals_stand()
    ensures { ToldRefusalsStand }
{}

/// The first rule that is broken on the way to the line of a ladder is broken at a byte of its text, from 0 to its length, or it is rule 11 on
/// the command line.
pub fn ladder_refusals_stand()
    ensures { LadderRefusalsStand }
{}

/// The first rule that is broken on the way to the verdict on a printed report is broken at such a byte of the named files, or it is rule 11 on
/// the command line; or the report is past its limit, and the rule is broken at a byte of it.
pub fn verdict_refusals_stand()
    ensures files { VerdictRefusalsStand }
    ensures report { LongReportsStand }
{}
