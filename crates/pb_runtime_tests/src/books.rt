//! What books return, one turn after another.

ghost use Rattle.std.specs.Prelude.{◌≡◌, ◌≤◌};

use crate::codes::{DEVICES, PRINT, verified};
use pb_shared::{Answer, Book, CodeBrand, CommitFault, HomeFault, Outcome, Taken};
use pb_verifier::Verified;
use std::alloc::Global;
use std::marker::Brand;

/// What came of a turn.
#[derive(Clone, Copy, Debug, PartialEq, Eq)]
pub enum Came {
    Did,
    Refused,
    Silent,
    Stranger,
    NoMemory,
    Idle,
    Done,
    Limit,
}

/// Returns what came of a commit.
pub fn came_of(answer: Answer) -> Came {
    match answer {
        Answer::Did => Came::Did,
        Answer::Refused => Came::Refused,
        Answer::Silent => Came::Silent,
    }
}

/// Takes a stretch, runs it and commits it: the allowance that was lent, how many picks the run made, and
/// what came.
pub fn turn<'v, C: CodeBrand>(
    book: &mut Book<'v, C>,
    alloc: Global,
    most: u32,
) -> (u32, u32, Came) {
    match book.take(alloc, 64) {
        Ok(Taken::Work(mut stretch)) => {
            let allowance = stretch.allowance();
            let made = stretch.run(most);
            match book.commit(stretch) {
                Ok(answer) => (allowance, made, came_of(answer)),
                Err((stretch, fault)) => {
                    stretch.forfeit();
                    match fault {
                        CommitFault::Stranger => (allowance, made, Came::Stranger),
                        CommitFault::NoMemory => (allowance, made, Came::NoMemory),
                    }
                }
            }
        }
        Ok(Taken::Idle) => (0, 0, Came::Idle),
        Ok(Taken::Over(Outcome::Done)) => (0, 0, Came::Done),
        Ok(Taken::Over(Outcome::Limit)) => (0, 0, Came::Limit),
        Err(_) => (0, 0, Came::NoMemory),
    }
}

/// Returns three turns of a book with this limit, and how many picks it has then.
fn three_turns<C: CodeBrand>(
    alloc: Global,
    code: &Verified,
    limit: u32,
) -> Option<([(u32, u32, Came); 3], u32)>
    requires brand { code.now ≡ C.code }
    requires limit { limit ≤ 10000000 }
{
    let mut book: Book<'_, C> = match Book::new(alloc, code, limit) {
        Ok(book) => book,
        Err(_) => return None,
    };
    let first = turn(&mut book, alloc, 10);
    let second = turn(&mut book, alloc, 10);
    let third = turn(&mut book, alloc, 10);
    Some(([first, second, third], book.trace().len()))
}

#[test]
fn limits(rt: HostRuntime) {
    let Some(code) = verified(rt.alloc(), PRINT) else {
        panic!(rt; "no code")
    };
    let done = (0, 0, Came::Done);
    let limit = (0, 0, Came::Limit);
    let three = three_turns::<Brand>(rt.alloc(), &code, 3);
    assert!(rt; three == Some(([(3, 1, Came::Did), (1, 0, Came::Did), done], 3)));
    let two = three_turns::<Brand>(rt.alloc(), &code, 2);
    assert!(rt; two == Some(([(2, 1, Came::Did), limit, limit], 2)));
    let one = three_turns::<Brand>(rt.alloc(), &code, 1);
    assert!(rt; one == Some(([(1, 1, Came::Silent), limit, limit], 1)));
}

/// Takes a stretch, runs it and puts it back, and returns the allowance that was lent.
fn allowance_of_put_back<'v, C: CodeBrand>(book: &mut Book<'v, C>, alloc: Global) -> Option<u32> {
    let mut stretch = match book.take(alloc, 64) {
        Ok(Taken::Work(stretch)) => stretch,
        Ok(Taken::Idle) => return None,
        Ok(Taken::Over(_)) => return None,
        Err(_) => return None,
    };
    let allowance = stretch.allowance();
    let _ = stretch.run(64);
    match book.put_back(stretch) {
        Ok(()) => Some(allowance),
        Err(stretch) => {
            stretch.forfeit();
            None
        }
    }
}

/// Returns a stretch that is run and put back, and then a turn: the allowance that was lent, how many picks
/// the book then has, and the turn.
fn put_back_once<C: CodeBrand>(
    alloc: Global,
    code: &Verified,
) -> Option<(u32, u32, (u32, u32, Came))>
    requires { code.now ≡ C.code }
{
    let mut book: Book<'_, C> = match Book::new(alloc, code, 3) {
        Ok(book) => book,
        Err(_) => return None,
    };
    let allowance = allowance_of_put_back(&mut book, alloc)?;
    let made = book.trace().len();
    Some((allowance, made, turn(&mut book, alloc, 10)))
}

#[test]
fn put_back(rt: HostRuntime) {
    let Some(code) = verified(rt.alloc(), PRINT) else {
        panic!(rt; "no code")
    };
    let back = put_back_once::<Brand>(rt.alloc(), &code);
    assert!(rt; back == Some((3, 0, (3, 1, Came::Did))));
}

/// Returns what came of a stretch that is run and brought home, and how many picks the book then has.
fn bring_home_once<C: CodeBrand>(alloc: Global, code: &Verified) -> Option<(Came, u32)>
    requires { code.now ≡ C.code }
{
    let mut book: Book<'_, C> = match Book::new(alloc, code, 3) {
        Ok(book) => book,
        Err(_) => return None,
    };
    let mut stretch = match book.take(alloc, 64) {
        Ok(Taken::Work(stretch)) => stretch,
        Ok(Taken::Idle) => return None,
        Ok(Taken::Over(_)) => return None,
        Err(_) => return None,
    };
    let _ = stretch.run(64);
    let came = match book.bring_home(stretch) {
        Ok(answer) => came_of(answer),
        Err(HomeFault::NoMemory) => Came::NoMemory,
        Err(HomeFault::Stranger(stretch)) => {
            stretch.forfeit();
            Came::Stranger
        }
    };
    Some((came, book.trace().len()))
}

#[test]
fn bring_home(rt: HostRuntime) {
    let Some(code) = verified(rt.alloc(), PRINT) else {
        panic!(rt; "no code")
    };
    let home = bring_home_once::<Brand>(rt.alloc(), &code);
    assert!(rt; home == Some((Came::Did, 2)));
}

/// Returns what came of the turns of a book up to its end, of which there are at most 13, and how many events
/// it has then.
fn all_turns<C: CodeBrand>(alloc: Global, code: &Verified) -> Option<([Came; 13], usize)>
    requires { code.now ≡ C.code }
{
    let mut book: Book<'_, C> = match Book::new(alloc, code, 100) {
        Ok(book) => book,
        Err(_) => return None,
    };
    let mut all = [Came::Idle; 13];
    for i in 0..13 {
        all[i] = turn(&mut book, alloc, 10).2;
    }
    Some((all, book.trace().events_len()))
}

#[test]
fn refusals_are_marked(rt: HostRuntime) {
    let Some(code) = verified(rt.alloc(), DEVICES) else {
        panic!(rt; "no code")
    };
    // a takes the tape, b is refused the disk, a takes the disk and gives it back; that clears b's mark, but
    // b is refused once more, since a may ask for the disk again as far as its claim says
    let mut wanted = [Came::Did; 13];
    wanted[1] = Came::Refused;
    wanted[4] = Came::Refused;
    wanted[12] = Came::Done;
    let all = all_turns::<Brand>(rt.alloc(), &code);
    assert!(rt; all == Some((wanted, 10)));
}
