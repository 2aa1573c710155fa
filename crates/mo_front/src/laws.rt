//! The laws of what is told. Each function does nothing: its contract is the law.
ghost use Rattle.std.specs.Prelude.{ℕ, List};
ghost use Rattle.mo_ports.specs.Contents.{Contents};
ghost use Rattle.mo_front.specs.declared.words.Emit.{Emit};
ghost use Rattle.mo_front.specs.Run.{TellsWords, FilesTellOne, TellsOne};
ghost use Rattle.mo_front.specs.Told.{FilesGive, GivesOne};

/// The named files give one thing, asked for a class: one flat model, or one broken rule at one place.
pub fn files_give_one()
    ensures { (path names : List (List ℕ)) (contents : Contents) → GivesOne (FilesGive path names contents) }
{}

/// What is told of a class in named files is one thing: two texts that are told are equal, and so are their statuses.
pub fn files_tell_one()
    ensures { (path names : List (List ℕ)) (emit : Emit) → FilesTellOne path names emit }
{}

/// What is told of words and of what is held is one thing, for a class in files, for a printed report behind them and for a ladder: two texts
/// that are told are equal, and so are their statuses.
pub fn words_tell_one()
    ensures { (words : List (List ℕ)) (contents : Contents) → TellsOne (TellsWords words contents) }
{}
