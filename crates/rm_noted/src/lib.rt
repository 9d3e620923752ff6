//! A value that only clauses read. No memory holds it, and to make it takes no time.
#![tactic(auto)]

ghost use Rattle.std.specs.Prelude.{◌≡◌};
ghost use Rattle.std.specs.Borrow.{ftrue};

use std::marker::{Model, PhantomData};

/// A value of the type that clauses see of `T`. No `T` is ever made: for a type of `specs/` let `T` be an empty struct
/// with that type as its `Value`.
///
/// Nothing ties the value to memory. It is what the functions that note it are proved to note: so keep it in a private
/// field, behind functions whose clauses say how each changes it.
#[derive(Drop)]
pub struct Noted<T> {
    of: PhantomData<T>,
    ghost value: { T },
}

impl<T> Model for Noted<T> {
    ghost also_owns = { λ _. ftrue };

    ghost Value = { T };

    ghost view = { λ noted. noted.value };
}

impl<T> Noted<T> {
    /// Notes the value that the caller's proof picks, from what is passed.
    #[inline(always)]
    pub fn of<A>(_from: &A) -> Noted<T>
        ghost value: { T }
        ensures { result ≡ value }
    {
        Noted { of: PhantomData }
    }
}
