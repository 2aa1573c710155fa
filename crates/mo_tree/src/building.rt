//! The class tree of files, or the first of its rules that they break.
ghost use Rattle.std.specs.Prelude.{◌≡◌, ◌<◌, List as Seq, ℕ, true, false, IfOk, OnOk, Some, None};
ghost use Rattle.std.specs.Option.{option_map};
ghost use Rattle.mo_syntax.specs.ClassTable.{class_count, broken_tree};
ghost use Rattle.mo_syntax.specs.Outcome.{IfBroken};
ghost use Rattle.mo_syntax.specs.Rows.{row_of};
ghost use Rattle.mo_syntax.specs.declared.rules.TheConstants.{DECLARED_TWICE};
ghost use Rattle.mo_tree.specs.steps.Homes.{long_number, number_of_within};
ghost use Rattle.mo_tree.specs.Keys.{holds};
ghost use Rattle.mo_tree.specs.steps.Repeats.{has_key, with_key, with_keys, repeated, within_broken};

use crate::keys::Keys;
use crate::names::Name;
use crate::walk::file_names;
use mo_syntax::{Body, ClassAt, ClassTree, FileTree, List, Stop, find_class, rules, stop};
use std::alloc::Global;

/// The class tree of these files. The first broken rule of the class tree, in the order of files and bytes: rule 10 at a
/// `within` that is not the path of a long class, rule 9 at a name that stands among the elements of its class, or at the
/// top, before. Want of memory is the only other answer.
pub fn build(alloc: Global, files: List<FileTree>) -> Result<ClassTree, Stop>
    requires few { class_count files < 4294967290 }
    ensures ok { IfOk result (λ tree. tree.files ≡ files) }
    ensures accepted { IfOk result (λ _. broken_tree files ≡ None) }
    ensures refused { IfBroken result (λ broken. broken_tree files ≡ Some broken) }
{
    check(alloc, files.as_slice())?;
    Ok(ClassTree { files })
}

/// Ok where no rule of the class tree is broken.
fn check(alloc: Global, files: &[FileTree]) -> Result<(), Stop>
    requires few { class_count files.now < 4294967290 }
    ensures accepted { OnOk result (broken_tree files.now ≡ None) }
    ensures refused { IfBroken result (λ broken. broken_tree files.now ≡ Some broken) }
{
    let mut keys = Keys::new(alloc);
    let mut next = 6u32;
    for file in files {
        let home = number_of_home(files, file)?;
        let mut names = List::new(alloc);
        next = file_names(alloc, file, home, next, &mut names)?;
        put_all(&mut keys, names)?;
    }
    Ok(())
}

/// The number of the class whose elements the classes of a file are, 0 where they stand at the top: that of the long class
/// with the path behind `within`, or rule 10 where there is none.
fn number_of_home(files: &[FileTree], file: &FileTree) -> Result<u32, Stop>
    requires few { class_count files.now < 4294967290 }
    ensures accepted { IfOk result (λ _. within_broken files.now file.now.within ≡ None) }
    ensures number { IfOk result (λ home. home ≡ number_of_within files.now file.now.within) }
    ensures refused { IfBroken result (λ broken. within_broken files.now file.now.within ≡ Some broken) }
{
    let Some((within, place)) = &file.within else {
        return Ok(0);
    };
    match long_class(&find_class(files, within.0.as_slice())) {
        Some(number) => Ok(number),
        None => Err(stop(rules::WITHIN_NAMES_NO_CLASS, *place)),
    }
}

/// The number of the class, where there is one and it is long.
fn long_class(found: &Option<ClassAt>) -> Option<u32>
    ensures { result ≡ long_number (option_map row_of found.now) }
{
    match found {
        Some(found) => match &found.class.body {
            Body::Long {
                extending: _,
                items: _,
                external: _,
            } => Some(found.id.0),
            Body::Short {
                causal: _,
                base: _,
                subs: _,
                mods: _,
            } => None,
            Body::Enumeration(_) => None,
            Body::Der(_, _) => None,
        },
        None => None,
    }
}

/// Puts the keys of names in. The first name whose key is there already breaks rule 9.
fn put_all(keys: &mut Keys, names: List<Name>) -> Result<(), Stop>
    ensures accepted { OnOk result (repeated (holds keys.old) names ≡ None) }
    ensures kept { OnOk result ((key : Seq ℕ) → holds keys.new key ≡ with_keys (holds keys.old) names key) }
    ensures refused { IfBroken result (λ broken. repeated (holds keys.old) names ≡ Some broken) }
{
    for name in names.into_vec() {
        put(keys, name)?;
    }
    Ok(())
}

/// Puts the key of a name in, where it has one.
fn put(keys: &mut Keys, name: Name) -> Result<(), Stop>
    ensures accepted { OnOk result (has_key (holds keys.old) name.key ≡ false) }
    ensures kept { OnOk result ((key : Seq ℕ) → holds keys.new key ≡ with_key (holds keys.old) name.key key) }
    ensures broken { IfBroken result (λ broken. has_key (holds keys.old) name.key ≡ true) }
    ensures place { IfBroken result (λ broken. broken ≡ record { rule = DECLARED_TWICE; place = name.place }) }
{
    let Name { key, place } = name;
    let Some(key) = key else {
        return Ok(());
    };
    if keys.insert(key)? {
        return Ok(());
    }
    Err(stop(rules::DECLARED_TWICE, place))
}
