//! Languages whose texts a server knows.

ghost use Rattle.std.specs.Prelude.{◌≡◌, IfOk, Option, List, ℕ, false, option_map};
ghost use Rattle.serde_json.specs.Data.{Data};
ghost use Rattle.serde_json.specs.View.{view};
ghost use Rattle.serde_json.specs.Written.{has_float};
ghost use Rattle.pb_server.specs.Founds.{FoundData, IsFree, found_view};
ghost use Rattle.pb_server.specs.declared.query.Query.{Query as AnyQuery};

use crate::found::Found;
use crate::query::Query;
use pb_base::NoMemory;
use serde_json::Value;
use std::alloc::Global;

/// A language: what a server says of a text in it.
pub trait Language {
    /// The diagnostics of a document with this name and text.
    ghost Diagnoses: { List ℕ → List ℕ → Data → Type 0 };

    /// What is found in the text of a document, for a request with these parameters.
    ghost Finds: { AnyQuery → List ℕ → List ℕ → Option Data → FoundData → Type 0 };

    /// Returns the list of the diagnostics of a document.
    fn diagnose(&self, alloc: Global, uri: &str, text: &str) -> Result<Value, NoMemory>
        ensures diagnoses { IfOk result (λ v. Diagnoses uri.now text.now (view v)) }
        ensures float_free { IfOk result (λ v. has_float (view v) ≡ false) };

    /// Returns what is found in the text of a document, or why nothing can be.
    fn find(
        &self,
        alloc: Global,
        query: Query,
        uri: &str,
        text: &str,
        params: Option<&Value>,
    ) -> Result<Found, NoMemory>
        ensures finds { IfOk result (λ found. Finds query uri.now text.now (option_map (λ p. view p.now) params.entry) (found_view found)) }
        ensures float_free { IfOk result (λ found. IsFree (found_view found)) };
}
