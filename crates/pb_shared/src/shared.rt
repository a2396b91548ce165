//! A book after a lock, with a condition on which those wait that find nothing to do.
//!
//! **No wake-up is lost.** A thread sleeps only if, with the lock, it found that the book is idle or that
//! another thread makes turns for all (`driven`), and it is counted before it gives the lock back. Each call
//! that changes the book gives the lock back by `give_back`, which wakes one of those that are counted if
//! there is something for it: unless the book is idle, or another thread still makes turns. Whoever is woken
//! takes the lock, and gives it back in the same way, also if it is out of memory: so as long as the book is
//! not idle there is one more that is awake. A thread that makes turns for all ends that with the lock, and
//! then takes what is there and gives the lock back. At an outcome all are woken.

ghost use Rattle.std.specs.Prelude.{◌≡◌, ◌<◌, IfOk, IfErr};
ghost use Rattle.pb_shared.specs.Taking.{IsHandedBack, IsHandedOut};

use crate::answer::Answer;
use crate::book::Book;
use crate::brand::CodeBrand;
use crate::desk::Desk;
use crate::fault::{CommitFault, HomeFault};
use crate::stretch::Stretch;
use crate::taken::Taken;
use pb_base::NoMemory;
use std::alloc::Global;
use std::hint::spin_loop;
use std::sync::{Condvar, Mutex, MutexGuard, Wait};

/// How often a thread tries the lock before it may sleep, and how often it looks for work before it does.
const TRIES: u32 = 24;

/// How many pauses are between the first two tries, and the most that are between two.
const FEWEST_PAUSES: u32 = 16;

const MOST_PAUSES: u32 = 2048;

/// How many turns a thread makes before it lets others bring their stretches home.
const TURNS: u32 = 256;

/// A book that threads share. Whenever its lock is free its book is legal.
#[derive(Drop)]
pub struct Shared<'v, C: CodeBrand> {
    desk: Mutex<Desk<'v, C>>,
    came_home: Condvar,
}

impl<'v, C: CodeBrand> Shared<'v, C> {
    /// Puts the book after a lock. All that is lent is run with no lock held.
    pub fn new(book: Book<'v, C>) -> Shared<'v, C> {
        Shared {
            desk: Mutex::new(Desk::new(book, false)),
            came_home: Condvar::new(),
        }
    }

    /// Puts the book after a lock, for threads that do nothing between the run of a stretch and its commit.
    /// As long as stretches are short one thread makes their picks with the lock held, as turns of the book,
    /// which takes less time than the lock needs to go to another thread.
    pub fn open(book: Book<'v, C>) -> Shared<'v, C> {
        Shared {
            desk: Mutex::new(Desk::new(book, true)),
            came_home: Condvar::new(),
        }
    }

    /// Takes the lock. A thread tries it for a while before it may sleep: to let it sleep, and to wake it,
    /// takes much longer than the lock is held. A try that fails takes the word of the lock from the thread
    /// that has it, so the pauses between tries double.
    #[inline(always)]
    fn lock<R: Wait>(&self, rt: &R) -> MutexGuard<'_, Desk<'v, C>> {
        let mut pauses = FEWEST_PAUSES;
        for _ in 0..TRIES {
            if let Some(desk) = self.desk.try_lock() {
                return desk;
            }
            pauses = pause(pauses);
        }
        self.desk.lock(rt)
    }

    /// Lends a stretch, or returns the outcome. It waits while the book is idle.
    pub fn take<R: Wait>(
        &self,
        rt: &R,
        alloc: Global,
        quantum: u32,
    ) -> Result<Taken<'v, C>, NoMemory>
        requires { 0 < quantum }
        ensures { IfOk result (λ taken. IsHandedOut quantum taken) }
    {
        let desk = self.lock(rt);
        self.next(rt, desk, alloc, quantum)
    }

    /// Lends the next stretch, or returns the outcome. It waits while the book is idle, at first with pauses,
    /// and while another thread makes turns for all.
    fn next<'b, R: Wait>(
        &'b self,
        rt: &R,
        desk: MutexGuard<'b, Desk<'v, C>>,
        alloc: Global,
        quantum: u32,
    ) -> Result<Taken<'v, C>, NoMemory>
        requires { 0 < quantum }
        ensures { IfOk result (λ taken. IsHandedOut quantum taken) }
    {
        let mut desk = desk;
        let mut pauses = FEWEST_PAUSES;
        let mut looks = 0u32;
        for _ in rt.forever() {
            if desk.driven {
                desk = self.wait(rt, desk);
                continue;
            }
            desk = self.drive(rt, desk, quantum);
            match desk.book.take(alloc, quantum) {
                Ok(Taken::Idle) => {}
                taken => {
                    self.give_back(desk);
                    return taken;
                }
            }
            if looks < TRIES {
                looks += 1;
                self.give_back(desk);
                pauses = pause(pauses);
                desk = self.lock(rt);
            } else {
                desk = self.wait(rt, desk);
            }
        }
        unreachable!()
    }

    /// Makes turns in the book as long as stretches are short, until it has none or is out of memory. After
    /// some turns it gives the lock to those who bring a stretch home.
    fn drive<'b, R: Wait>(
        &'b self,
        rt: &R,
        desk: MutexGuard<'b, Desk<'v, C>>,
        quantum: u32,
    ) -> MutexGuard<'b, Desk<'v, C>>
        requires { 0 < quantum }
    {
        let mut desk = desk;
        for _ in rt.forever() {
            let goes_on = desk.make_turns(TURNS, quantum);
            if !goes_on {
                break;
            }
            desk.driven = true;
            drop(desk);
            desk = self.lock(rt);
            desk.driven = false;
        }
        desk
    }

    /// Waits until it is woken.
    fn wait<'b, R: Wait>(
        &self,
        rt: &R,
        desk: MutexGuard<'b, Desk<'v, C>>,
    ) -> MutexGuard<'b, Desk<'v, C>> {
        let mut desk = desk;
        desk.waiting = desk.waiting.saturating_add(1);
        let mut desk = self.came_home.wait(rt, desk);
        desk.waiting = desk.waiting.saturating_sub(1);
        desk
    }

    /// Gives the lock back, and wakes one of those that wait if there is something for it, or all at an
    /// outcome.
    #[inline(always)]
    fn give_back(&self, desk: MutexGuard<'_, Desk<'v, C>>) {
        if desk.waiting == 0 || desk.driven {
            return;
        }
        let is_over = desk.book.outcome().is_some();
        let is_idle = !is_over && desk.book.is_idle();
        drop(desk);
        if is_over {
            self.came_home.notify_all();
        } else if !is_idle {
            self.came_home.notify_one();
        }
    }

    /// Takes a stretch home, as the book's own call does.
    pub fn commit<R: Wait>(
        &self,
        rt: &R,
        stretch: Stretch<'v, C>,
    ) -> Result<Answer, (Stretch<'v, C>, CommitFault)>
        ensures { IfErr result (λ e. e.0 ≡ stretch.entry) }
    {
        let mut desk = self.lock(rt);
        desk.note(stretch.made());
        let answer = desk.book.commit(stretch);
        self.give_back(desk);
        answer
    }

    /// Takes a stretch home as the book's `bring_home` does, and lends the next, with one lock for both. It
    /// waits while the book is idle. Whoever calls it has no stretch in hand if out of memory: it was put back,
    /// or, if the next one takes the memory, it came home.
    #[inline(always)]
    pub fn commit_and_take<R: Wait>(
        &self,
        rt: &R,
        stretch: Stretch<'v, C>,
        alloc: Global,
        quantum: u32,
    ) -> Result<Taken<'v, C>, HomeFault<'v, C>>
        requires { 0 < quantum }
        ensures ok { IfOk result (λ taken. IsHandedOut quantum taken) }
        ensures err { IfErr result (λ fault. IsHandedBack stretch.entry fault) }
    {
        let mut desk = self.lock(rt);
        desk.note(stretch.made());
        match desk.book.bring_home(stretch) {
            Ok(_) => match self.next(rt, desk, alloc, quantum) {
                Ok(taken) => Ok(taken),
                Err(NoMemory) => Err(HomeFault::NoMemory),
            },
            Err(fault) => {
                self.give_back(desk);
                Err(fault)
            }
        }
    }

    /// Takes a stretch back as it was lent, as the book's own call does.
    pub fn put_back<R: Wait>(&self, rt: &R, stretch: Stretch<'v, C>) -> Result<(), Stretch<'v, C>>
        ensures { IfErr result (λ e. e ≡ stretch.entry) }
    {
        let mut desk = self.lock(rt);
        let answer = desk.book.put_back(stretch);
        self.give_back(desk);
        answer
    }

    /// Returns the book.
    pub fn into_book(self) -> Book<'v, C> {
        self.desk.into_inner().into_book()
    }
}

/// Pauses that many times, and returns how often to pause the next time: twice as often.
fn pause(pauses: u32) -> u32 {
    for _ in 0..pauses {
        spin_loop();
    }
    pauses.saturating_mul(2).min(MOST_PAUSES)
}
