//! The laws of elements. Each function does nothing: its contract is the law.
ghost use Rattle.std.specs.Prelude.{◌≡◌, Ok};
ghost use Rattle.mo_flat.specs.declared.array.ArrayExpr.{ArrayExpr as Tree};
ghost use Rattle.mo_typing.specs.Dims.{Dims, dims_of};
ghost use Rattle.mo_typing.specs.Shape.{shape_of};

/// The dimensions by which elements are counted are those of `dims_of`, wherever these break no rule.
pub fn elements_fill_the_dimensions()
    ensures { (e : Tree) (dims : Dims) → dims_of e ≡ Ok dims → shape_of e ≡ dims }
{}
