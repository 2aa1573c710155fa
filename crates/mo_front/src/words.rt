//! The words of the command line.
ghost use Rattle.std.specs.Prelude.{◌≡◌, ◌≢◌, ◌++◌, ◌∷◌, true, false, List as Seq, ℕ, None, Some, IfOk, IfSome, IsErrOf, OnOk, map, option_map, codes};
ghost use Rattle.std.specs.List.{flat_map};
ghost use Rattle.mo_syntax.specs.Lexeme.{lexemes};
ghost use Rattle.std.specs.String.{string_bytes};
ghost use Rattle.mo_front.specs.Words.{Asks, AsksFor, Names, NamesClass, NamesJob, command, dotted_names, is_dot, is_end, is_ident, name_alone, name_before_dot, with_dots};
ghost use Rattle.mo_front.specs.Run.{words_of};
ghost use Rattle.clap.specs.Words.{app_of, first_value, found_of, kind_of, rows_of};

use crate::rungs::rungs_named;
use clap::error::ErrorKind;
use clap::{Arg, ArgAction, ArgMatches, Command};
use mo_lexer::tokens;
use mo_syntax::{List, NoMemory, Path, Stop, Text, Token, TokenKind, pushed};
use std::alloc::{AllocError, Global};
use thiserror::Error;

/// The most files that the words may name.
const MOST_FILES: usize = 64;

/// What is to be written of a model.
#[derive(Clone, Copy, Debug, PartialEq, Eq)]
pub enum Emit {
    /// Its flat text.
    Flat,
    /// The text of its reduced model.
    Reduced,
    /// The report on its structure.
    Report,
    /// All three.
    All,
    /// The report as JSON.
    Json,
    /// The states that stateSelect prefers.
    States,
    /// Its aliases, and the model without them.
    Alias,
}

/// What the words ask for.
#[derive(Debug, Drop)]
pub enum Words {
    /// A text of a class in files.
    Job {
        /// The path of the class.
        class: Path,
        /// What is to be written of it.
        emit: Emit,
        /// From 1 to 64 names of files.
        files: List<Text>,
        /// The name of a printed report that is to be verified in place of what is written; `emit` is then that of a report.
        verify: Option<Text>,
    },
    /// The counts of a ladder of so many rungs, from 1 to 1000.
    Make(u32),
}

/// Why the words ask for nothing.
#[derive(Clone, Copy, Debug, PartialEq, Eq, Error)]
pub enum WordsFault {
    /// They are of another form.
    #[error("the words are of no form that the program knows")]
    Usage,
    #[error("out of memory")]
    NoMemory,
}

impl From<AllocError> for WordsFault {
    ghost use Rattle.std.specs.Prelude.{◌≡◌};
    ghost use Rattle.mo_front.specs.declared.words.WordsFault.TheVariants.{NoMemory as no_memory};

    ghost from_gives = { λ _ fault. fault ≡ no_memory };

    fn from(_refused: AllocError) -> WordsFault {
        WordsFault::NoMemory
    }
}

impl From<NoMemory> for WordsFault {
    ghost use Rattle.std.specs.Prelude.{◌≡◌};
    ghost use Rattle.mo_front.specs.declared.words.WordsFault.TheVariants.{NoMemory as no_memory};

    ghost from_gives = { λ _ fault. fault ≡ no_memory };

    fn from(_refused: NoMemory) -> WordsFault {
        WordsFault::NoMemory
    }
}

/// Reads the words of the command line, without the program's own name. `Usage` exactly where they are of no form that the
/// program knows; `NoMemory` is the only other answer.
pub fn read_words(alloc: Global, words: &[String]) -> Result<Words, WordsFault>
    ensures names { IfOk result (Names (words_of words.now)) }
    ensures usage { IsErrOf result WordsFault.Usage → (asked : Words) → Names (words_of words.now) asked → ⊥ }
{
    match command(alloc)?.try_get_matches_from(words) {
        Ok(matches) => asked(alloc, &matches),
        Err(error) => Err(fault(&error)),
    }
}

/// The command as `clap` reads it.
fn command<'a>(alloc: Global) -> Result<Command<'a>, AllocError>
    ensures { IfOk result (λ made. app_of made ≡ command) }
{
    let class = Arg::new(alloc, "class").long("class");
    let emit = Arg::new(alloc, "emit").long("emit");
    let verify = Arg::new(alloc, "verify").long("verify");
    let make = Arg::new(alloc, "make").long("make");
    let file = Arg::new(alloc, "file").action(ArgAction::Append);
    Command::new(alloc, "mofront")
        .no_binary_name(true)
        .disable_help_flag(true)
        .arg(class)?
        .arg(emit)?
        .arg(verify)?
        .arg(make)?
        .arg(file)
}

/// What an error of `clap` comes to.
fn fault(error: &clap::Error) -> WordsFault
    ensures usage { result ≡ WordsFault.Usage → kind_of error.now ≢ ErrorKind.OutOfMemory }
    ensures memory { result ≡ WordsFault.NoMemory → kind_of error.now ≡ ErrorKind.OutOfMemory }
{
    match error.kind() {
        ErrorKind::OutOfMemory => WordsFault::NoMemory,
        _ => WordsFault::Usage,
    }
}

/// What the options and files ask for.
fn asked(alloc: Global, matches: &ArgMatches<'_>) -> Result<Words, WordsFault>
    ensures asks { IfOk result (Asks (rows_of (found_of matches.now))) }
    ensures usage { IsErrOf result WordsFault.Usage → (asked : Words) → Asks (rows_of (found_of matches.now)) asked → ⊥ }
{
    match matches.get_str("make") {
        Some(word) => ladder_asked(matches, word),
        None => files_asked(alloc, matches),
    }
}

/// What they ask for where nothing stands behind `--make`.
fn files_asked(alloc: Global, matches: &ArgMatches<'_>) -> Result<Words, WordsFault>
    requires no_ladder { first_value (found_of matches.now) (codes "make") ≡ None }
    ensures asks { IfOk result (Asks (rows_of (found_of matches.now))) }
    ensures usage { IsErrOf result WordsFault.Usage → (asked : Words) → Asks (rows_of (found_of matches.now)) asked → ⊥ }
{
    match matches.get_str("verify") {
        Some(report) => verdict_asked(alloc, matches, report),
        None => class_asked(alloc, matches),
    }
}

/// What they ask for where that word stands behind `--verify`.
fn verdict_asked(alloc: Global, matches: &ArgMatches<'_>, report: &str) -> Result<Words, WordsFault>
    requires no_ladder { first_value (found_of matches.now) (codes "make") ≡ None }
    requires given { Some report.now ≡ first_value (found_of matches.now) (codes "verify") }
    ensures asks { IfOk result (Asks (rows_of (found_of matches.now))) }
    ensures usage { IsErrOf result WordsFault.Usage → (asked : Words) → Asks (rows_of (found_of matches.now)) asked → ⊥ }
{
    if matches.get_str("emit").is_some() {
        return Err(WordsFault::Usage);
    }
    let verify = Text::from_str(alloc, report)?;
    match job_named(alloc, matches) {
        Ok((class, files)) => Ok(Words::Job {
            class,
            emit: Emit::Report,
            files,
            verify: Some(verify),
        }),
        Err(fault) => Err(fault),
    }
}

/// What they ask for where that word stands behind `--make`.
fn ladder_asked(matches: &ArgMatches<'_>, word: &str) -> Result<Words, WordsFault>
    requires given { Some word.now ≡ first_value (found_of matches.now) (codes "make") }
    ensures asks { IfOk result (Asks (rows_of (found_of matches.now))) }
    ensures usage { IsErrOf result WordsFault.Usage → (asked : Words) → Asks (rows_of (found_of matches.now)) asked → ⊥ }
{
    if matches.get_str("class").is_some() || matches.get_str("emit").is_some() {
        return Err(WordsFault::Usage);
    }
    if matches.get_str("verify").is_some() {
        return Err(WordsFault::Usage);
    }
    if matches.get_raw("file").is_some() {
        return Err(WordsFault::Usage);
    }
    match rungs_named(word) {
        Some(n) => Ok(Words::Make(n)),
        None => Err(WordsFault::Usage),
    }
}

/// What they ask for where nothing stands behind `--make` and `--verify`.
fn class_asked(alloc: Global, matches: &ArgMatches<'_>) -> Result<Words, WordsFault>
    requires no_ladder { first_value (found_of matches.now) (codes "make") ≡ None }
    requires no_report { first_value (found_of matches.now) (codes "verify") ≡ None }
    ensures asks { IfOk result (Asks (rows_of (found_of matches.now))) }
    ensures usage { IsErrOf result WordsFault.Usage → (asked : Words) → Asks (rows_of (found_of matches.now)) asked → ⊥ }
{
    let Some(emit) = emit_named(matches.get_str("emit")) else {
        return Err(WordsFault::Usage);
    };
    match job_named(alloc, matches) {
        Ok((class, files)) => Ok(Words::Job {
            class,
            emit,
            files,
            verify: None,
        }),
        Err(fault) => Err(fault),
    }
}

/// The class and the files that they name, where nothing stands behind `--make`.
fn job_named(alloc: Global, matches: &ArgMatches<'_>) -> Result<(Path, List<Text>), WordsFault>
    requires no_ladder { first_value (found_of matches.now) (codes "make") ≡ None }
    ensures job { IfOk result (λ job. NamesJob (rows_of (found_of matches.now)) job.0.0 job.1) }
    ensures usage { IsErrOf result WordsFault.Usage → (path files : Seq (Seq ℕ)) → NamesJob (rows_of (found_of matches.now)) path files → ⊥ }
{
    let Some(word) = matches.get_str("class") else {
        return Err(WordsFault::Usage);
    };
    let Some(class) = class_path(alloc, word)? else {
        return Err(WordsFault::Usage);
    };
    let Some(files) = matches.get_raw("file") else {
        return Err(WordsFault::Usage);
    };
    if files.is_empty() || files.len() > MOST_FILES {
        return Err(WordsFault::Usage);
    }
    let files = copied(alloc, files)?;
    Ok((class, files))
}

/// What the word of `--emit` asks for, None where it is no such word.
fn emit_named(word: Option<&str>) -> Option<Emit>
    ensures some { IfSome result (AsksFor (option_map (λ w. w.now) word.entry)) }
    ensures none { result ≡ None → (emit : Emit) → AsksFor (option_map (λ w. w.now) word.entry) emit → ⊥ }
{
    let Some(word) = word else {
        return Some(Emit::All);
    };
    match word {
        "flat" => Some(Emit::Flat),
        "reduced" => Some(Emit::Reduced),
        "report" => Some(Emit::Report),
        "all" => Some(Emit::All),
        "json" => Some(Emit::Json),
        "states" => Some(Emit::States),
        "alias" => Some(Emit::Alias),
        _ => None,
    }
}

/// Copies of the texts.
fn copied(alloc: Global, texts: &[&str]) -> Result<List<Text>, NoMemory>
    ensures { IfOk result (λ copies. copies ≡ map (λ t. t.now) texts.now) }
{
    let mut copies = List::new(alloc);
    for text in texts {
        pushed(&mut copies, Text::from_str(alloc, text))?;
    }
    Ok(copies)
}

/// The path of the class that the word names, None where it names none.
fn class_path(alloc: Global, word: &str) -> Result<Option<Path>, NoMemory>
    ensures found { IfOk result (λ found. IfSome found (λ path. NamesClass word.now path.0)) }
    ensures none { IfOk result (λ found. found ≡ None → (path : Seq (Seq ℕ)) → NamesClass word.now path → ⊥) }
{
    if word.len() > u32::MAX as usize {
        return Err(NoMemory);
    }
    let tokens = match tokens(alloc, 0, word) {
        Ok(tokens) => tokens,
        Err(Stop::Broken(_)) => return Ok(None),
        Err(Stop::NoMemory) => return Err(NoMemory),
    };
    let Some(names) = dotted(alloc, tokens.as_slice())? else {
        return Ok(None);
    };
    let joined = joined(alloc, names.as_slice())?;
    if !is_same(joined.as_str(), word) {
        return Ok(None);
    }
    Ok(Some(Path(names)))
}

fn is_same(text: &str, other: &str) -> bool
    ensures yes { result ≡ true → text.now ≡ other.now }
    ensures no { result ≡ false → text.now ≡ other.now → ⊥ }
{
    text == other
}

/// The names that the tokens are, with dots between them, None where they are something else.
fn dotted(alloc: Global, tokens: &[Token]) -> Result<Option<List<Text>>, NoMemory>
    ensures { IfOk result (λ found. found ≡ dotted_names (lexemes tokens.now)) }
{
    let mut names = List::new(alloc);
    let mut rest = tokens;
    'each: while rest.len() > 2 {
        let Some(name) = before_dot(rest) else {
            return Ok(None);
        };
        names.push(Text::from_str(alloc, name)?)?;
        rest = &rest[2..];
    }
    let Some(name) = alone(rest) else {
        return Ok(None);
    };
    names.push(Text::from_str(alloc, name)?)?;
    Ok(Some(names))
}

/// The identifier that stands at the front with a dot behind it.
fn before_dot<'a>(tokens: &[Token<'a>]) -> Option<&'a str>
    ensures { option_map (λ name. name.now) result ≡ name_before_dot (lexemes tokens.now) }
{
    match tokens {
        [name, dot, ..] if is_identifier(name.kind) && is_point(dot.kind) => Some(name.text),
        _ => None,
    }
}

/// The identifier, where it stands alone before the end.
fn alone<'a>(tokens: &[Token<'a>]) -> Option<&'a str>
    ensures { option_map (λ name. name.now) result ≡ name_alone (lexemes tokens.now) }
{
    match tokens {
        [name, end] if is_identifier(name.kind) && is_last(end.kind) => Some(name.text),
        _ => None,
    }
}

fn is_identifier(kind: TokenKind) -> bool
    ensures { result ≡ is_ident kind }
{
    match kind {
        TokenKind::Ident => true,
        _ => false,
    }
}

fn is_point(kind: TokenKind) -> bool
    ensures { result ≡ is_dot kind }
{
    match kind {
        TokenKind::Operator(code) => code == 6,
        _ => false,
    }
}

fn is_last(kind: TokenKind) -> bool
    ensures { result ≡ is_end kind }
{
    match kind {
        TokenKind::End => true,
        _ => false,
    }
}

/// The names with dots between them.
fn joined(alloc: Global, names: &[Text]) -> Result<String, NoMemory>
    ensures { IfOk result (λ word. string_bytes word ≡ with_dots names.now) }
{
    let [first, ..] = names else {
        return Ok(String::new(alloc));
    };
    let mut word = String::from_str(alloc, first.as_str())?;
    push_more(&mut word, &names[1..])?;
    Ok(word)
}

/// Appends the names, each behind a dot.
fn push_more(word: &mut String, names: &[Text]) -> Result<(), NoMemory>
    ensures { OnOk result (string_bytes word.new ≡ string_bytes word.old ++ flat_map (λ more. 46 ∷ more) names.now) }
{
    for name in names {
        word.push_str(".")?;
        word.push_str(name.as_str())?;
    }
    Ok(())
}
