//! What files give, asked for a class.
ghost use Rattle.std.specs.Prelude.{◌≤◌, length, IfOk, All};
ghost use Rattle.mo_syntax.specs.Outcome.{IfBroken};
ghost use Rattle.mo_syntax.specs.SoundTree.{IsSoundTree};
ghost use Rattle.mo_flat.specs.Sound.{IsSoundModel};
ghost use Rattle.mo_front.specs.Limits.{file_limit, most_files};
ghost use Rattle.mo_front.specs.Told.{TreesGive, TextsGive, flat as flattens, broken};

use crate::phases::{all_tokens, all_trees};
use mo_flat::FlatModel;
use mo_flatten::flatten;
use mo_syntax::{FileTree, List, Path, Stop, Text, class_count};
use mo_tree::build;
use std::alloc::Global;

/// What the texts of the files give, asked for the class of a path: a flat model, or the first broken rule.
pub(crate) fn of_texts(alloc: Global, path: &Path, texts: &[Text]) -> Result<FlatModel, Stop>
    requires few { length texts.now ≤ most_files }
    requires short { All (λ text. length text ≤ file_limit) texts.now }
    ensures flat { IfOk result (λ m. TextsGive path.now.0 texts.now (flattens m)) }
    ensures sound { IfOk result IsSoundModel }
    ensures refused { IfBroken result (λ b. TextsGive path.now.0 texts.now (broken b)) }
{
    match all_tokens(alloc, texts) {
        Ok(tokens) => match all_trees(alloc, tokens.as_slice()) {
            Ok(files) => of_trees(alloc, path, files),
            Err(stop) => Err(stop),
        },
        Err(stop) => Err(stop),
    }
}

/// What the trees of the files give: a flat model, or the first broken rule.
fn of_trees(alloc: Global, path: &Path, files: List<FileTree>) -> Result<FlatModel, Stop>
    requires sound { IsSoundTree files }
    ensures flat { IfOk result (λ m. TreesGive path.now.0 files (flattens m)) }
    ensures sound { IfOk result IsSoundModel }
    ensures refused { IfBroken result (λ b. TreesGive path.now.0 files (broken b)) }
{
    // No files within their limits have so many classes.
    if class_count(files.as_slice()) >= 4_294_967_290 {
        return Err(Stop::NoMemory);
    }
    match build(alloc, files) {
        Ok(tree) => flatten(alloc, &tree, path),
        Err(stop) => Err(stop),
    }
}
