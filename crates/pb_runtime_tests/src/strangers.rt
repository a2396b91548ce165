//! Two books over one code, and stretches of the one that come to the other.

ghost use Rattle.std.specs.Prelude.{◌≡◌};

use crate::books::{Came, came_of, turn};
use crate::codes::{FORKS, verified};
use pb_shared::{Book, CodeBrand, CommitFault, Taken};
use pb_verifier::Verified;
use std::alloc::Global;
use std::marker::Brand;

/// Brings a stretch that the other book lends to this one. A stranger is put back where it came from.
fn cross<'v, C: CodeBrand>(mine: &mut Book<'v, C>, other: &mut Book<'v, C>, alloc: Global) -> Came {
    let mut stretch = match other.take(alloc, 64) {
        Ok(Taken::Work(stretch)) => stretch,
        Ok(Taken::Idle) => return Came::Idle,
        Ok(Taken::Over(_)) => return Came::Done,
        Err(_) => return Came::NoMemory,
    };
    let _ = stretch.run(64);
    match mine.commit(stretch) {
        Ok(answer) => came_of(answer),
        Err((stretch, fault)) => match other.put_back(stretch) {
            Ok(()) => match fault {
                CommitFault::Stranger => Came::Stranger,
                CommitFault::NoMemory => Came::NoMemory,
            },
            Err(stretch) => {
                stretch.forfeit();
                Came::Idle
            }
        },
    }
}

/// Lends a stretch that never comes home.
fn lose<'v, C: CodeBrand>(book: &mut Book<'v, C>, alloc: Global) {
    match book.take(alloc, 64) {
        Ok(Taken::Work(stretch)) => stretch.forfeit(),
        Ok(Taken::Idle) => {}
        Ok(Taken::Over(_)) => {}
        Err(_) => {}
    }
}

/// Returns what came of three crossings and of a turn of the third book, and how many picks the two first books
/// have after the second crossing.
fn cross_three<'v, C: CodeBrand>(
    mine: &mut Book<'v, C>,
    other: &mut Book<'v, C>,
    third: &mut Book<'v, C>,
    alloc: Global,
) -> ([Came; 4], [u32; 2]) {
    // the process is at home here
    let first = cross(mine, other, alloc);
    // the same arm, allowance and state: no stranger, whoever lent it
    lose(mine, alloc);
    let second = cross(mine, other, alloc);
    let picks = [mine.trace().len(), other.trace().len()];
    // the same arm, but of another state
    lose(mine, alloc);
    let stranger = cross(mine, third, alloc);
    let last = turn(third, alloc, 64).2;
    ([first, second, stranger, last], picks)
}

/// Returns what `cross_three` returns for three books over one code.
fn crossings<C: CodeBrand>(alloc: Global, code: &Verified) -> Option<([Came; 4], [u32; 2])>
    requires { code.now ≡ C.code }
{
    let Ok(mut mine): Result<Book<'_, C>, _> = Book::new(alloc, code, 1000) else {
        return None;
    };
    let Ok(mut other): Result<Book<'_, C>, _> = Book::new(alloc, code, 1000) else {
        return None;
    };
    let Ok(mut third): Result<Book<'_, C>, _> = Book::new(alloc, code, 1000) else {
        return None;
    };
    Some(cross_three(&mut mine, &mut other, &mut third, alloc))
}

#[test]
fn strangers(rt: HostRuntime) {
    let Some(code) = verified(rt.alloc(), FORKS) else {
        panic!(rt; "no code")
    };
    let wanted = [Came::Stranger, Came::Did, Came::Stranger, Came::Did];
    let all = crossings::<Brand>(rt.alloc(), &code);
    assert!(rt; all == Some((wanted, [1, 0])));
}
