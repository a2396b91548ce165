//! A book after a lock: what is committed is made, and whoever finds nothing to do waits.

ghost use Rattle.std.specs.Prelude.{◌≡◌};

use crate::codes::{PRINT, verified};
use pb_shared::{Answer, Book, CodeBrand, Shared, Stretch, Taken};
use pb_verifier::Verified;
use std::alloc::{AllocGlobal, Global};
use std::marker::Brand;
use std::sync::Wait;
use std::sync::atomic::{AtomicBool, Ordering};
use std::thread;
use std::thread::Threads;

/// Returns a book of this code after a lock.
fn share<C: CodeBrand>(alloc: Global, code: &Verified) -> Option<Shared<'_, C>>
    requires { code.now ≡ C.code }
{
    match Book::new(alloc, code, 10) {
        Ok(book) => Some(Shared::new(book)),
        Err(_) => None,
    }
}

/// Takes a stretch, if one is lent.
fn stretch_of<'v, C: CodeBrand, R: Wait>(
    rt: &R,
    alloc: Global,
    shared: &Shared<'v, C>,
) -> Option<Stretch<'v, C>> {
    match shared.take(rt, alloc, 64) {
        Ok(Taken::Work(stretch)) => Some(stretch),
        Ok(Taken::Idle) => None,
        Ok(Taken::Over(_)) => None,
        Err(_) => None,
    }
}

/// Runs a stretch and commits it.
fn commit<'v, C: CodeBrand, R: Wait>(
    rt: &R,
    shared: &Shared<'v, C>,
    stretch: Stretch<'v, C>,
) -> Option<Answer> {
    let mut stretch = stretch;
    let _ = stretch.run(64);
    match shared.commit(rt, stretch) {
        Ok(answer) => Some(answer),
        Err((stretch, _)) => {
            stretch.forfeit();
            None
        }
    }
}

/// Returns what came of a commit, and how many picks the book has then.
fn commit_once<C: CodeBrand, R: Wait>(
    rt: &R,
    alloc: Global,
    code: &Verified,
) -> Option<(Answer, u32)>
    requires { code.now ≡ C.code }
{
    let shared: Shared<'_, C> = share(alloc, code)?;
    let stretch = stretch_of(rt, alloc, &shared)?;
    let answer = commit(rt, &shared, stretch)?;
    Some((answer, shared.into_book().trace().len()))
}

#[test]
fn a_commit_makes_the_picks(rt: HostRuntime) {
    let Some(code) = verified(rt.alloc(), PRINT) else {
        panic!(rt; "no code")
    };
    let made = commit_once::<Brand, HostRuntime>(&rt, rt.alloc(), &code);
    assert!(rt; made == Some((Answer::Did, 2)));
}

/// Takes the stretch of the only process, tells the other thread, and commits the stretch a while later.
fn goes_first<'v, C: CodeBrand, R: Wait>(
    rt: &R,
    alloc: Global,
    shared: &Shared<'v, C>,
    is_out: &AtomicBool,
) -> Option<Answer> {
    let stretch = stretch_of(rt, alloc, shared)?;
    is_out.store(true, Ordering::SeqCst);
    for _ in 0..200_000u32 {
        let _ = is_out.load(Ordering::SeqCst);
    }
    commit(rt, shared, stretch)
}

/// Takes a stretch and commits it, once the only process is out.
fn goes_next<'v, C: CodeBrand, R: Wait>(
    rt: &R,
    alloc: Global,
    shared: &Shared<'v, C>,
    is_out: &AtomicBool,
) -> Option<Answer> {
    for _ in 0..50_000_000u32 {
        if is_out.load(Ordering::SeqCst) {
            break;
        }
    }
    let stretch = stretch_of(rt, alloc, shared)?;
    commit(rt, shared, stretch)
}

/// Returns what came of the two stretches of a process, of which two threads take one each: the second is to
/// be taken while the first is out.
fn two_commits<C: CodeBrand, R: Threads + Wait + Sync>(
    rt: &R,
    alloc: Global,
    code: &Verified,
) -> Option<(Option<Answer>, Option<Answer>)>
    requires { code.now ≡ C.code }
{
    let shared: Shared<'_, C> = share(alloc, code)?;
    let is_out = AtomicBool::new(false);
    let (shared, is_out) = (&shared, &is_out);
    Some(thread::join(
        rt,
        move || goes_first(rt, alloc, shared, is_out),
        move || goes_next(rt, alloc, shared, is_out),
    ))
}

#[test]
fn who_finds_nothing_to_do_waits(rt: HostRuntime) {
    let Some(code) = verified(rt.alloc(), PRINT) else {
        panic!(rt; "no code")
    };
    for _ in 0..5 {
        let both = two_commits::<Brand, HostRuntime>(&rt, rt.alloc(), &code);
        assert!(rt; both == Some((Some(Answer::Did), Some(Answer::Did))));
    }
}
