// The rule over the table, and what its steps tell.
ghost use Rattle.std.specs.Prelude.{◌≡◌};

use atomic_table::{Join, Play, Split, TableRule};
use ng_view::view::{Start, View};
use std::marker::{Brand, PhantomData};

/// The rule of a heap, which holds between any two steps.
pub struct Law;

impl TableRule<(), View, Start> for Law {
    ghost use Rattle.ng_view.specs.Rule.{Rule};
    ghost use Rattle.ng_view.specs.Steps.{opener};

    ghost holds = { λ start state. Rule start state.words state.views };

    ghost first = { λ start. opener start };
}

/// What one step tells: of the view before, the word found and the view after. Each call picks it.
pub trait Telling {
    ghost use Rattle.std.specs.Prelude.{ℕ};
    ghost use Rattle.ng_view.specs.declared.view.View.{View};

    ghost told: { View → ℕ → View → Type 0 };
}

impl Telling for Brand {
    ghost told = { λ before found after. Unit {0} };
}

/// A step that tells what was picked, and takes no slot of the table.
pub struct Tells<T: Telling> {
    telling: PhantomData<T>,
}

impl<T: Telling> Play<(), View> for Tells<T> {
    ghost then = { λ step before found after. T.told before.0 found after.0 × (after.1 ≡ before.1) };
}

/// How a view is cut in two, or two are made one. Each call picks it.
pub trait Passing {
    ghost use Rattle.ng_view.specs.declared.view.View.{View};

    ghost both: { View };

    ghost left: { View };

    ghost right: { View };
}

impl Passing for Brand {
    ghost use Rattle.ng_view.specs.Steps.{spent};

    ghost both = { spent };

    ghost left = { spent };

    ghost right = { spent };
}

/// A split and a join as they were picked.
pub struct Passes<C: Passing> {
    passing: PhantomData<C>,
}

impl<C: Passing> Join<View> for Passes<C> {
    ghost use Rattle.ng_view.specs.Steps.{spent};

    ghost both = { λ view other. C.both };

    ghost spent = { spent };
}

impl<C: Passing> Split<View> for Passes<C> {
    ghost left = { λ view. C.left };

    ghost right = { λ view. C.right };
}
