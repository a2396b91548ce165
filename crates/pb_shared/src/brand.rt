//! A type parameter that stands for the code of a book.

ghost use Rattle.pb_shared.specs.Brands.{no_code};
ghost use Rattle.pb_verifier.specs.Verified.{VerifiedCode};

use std::marker::Brand;

/// A type that stands for one verified code. A book and its stretches have it as a parameter, so that a
/// stretch of another code does not fit a book, and nothing is compared when it comes home. Whoever opens a
/// book passes `std::marker::Brand`, and says in the proof of that call which code it stands for.
pub trait CodeBrand: Send + Sync {
    ghost code: { VerifiedCode };
}

impl CodeBrand for Brand {
    ghost code = { no_code };
}
