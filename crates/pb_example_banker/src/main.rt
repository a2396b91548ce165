//! A batch runner's night: jobs ask for devices, and wait until the banker lends them.
#![tactic(auto)]

ghost use Rattle.std.specs.Prelude.{◌≡◌, IfOk};
ghost use Rattle.pb_example_banker.specs.Serving.{IsAnswer, Serves};

use anyhow::Result;
use pb_banker::{Answer, Banker};
use pb_base::{Bundle, Capital, Claims, NoMemory};
use std::alloc::Global;

/// A job asks for some devices of one kind.
#[derive(Clone, Copy)]
struct Request {
    job: usize,
    device: u8,
    amount: u32,
}

impl Request {
    fn new(job: usize, device: u8, amount: u32) -> Request
        ensures { result ≡ record { job = job; device = device; amount = amount } }
    {
        Request {
            job,
            device,
            amount,
        }
    }
}

/// What came of some requests.
#[derive(Drop)]
struct Round {
    granted: Vec<Request>,
    /// May be granted when devices have come back.
    waiting: Vec<Request>,
    /// Can never be granted: the job or the device is not there, or the job asks for more than it claimed.
    hopeless: Vec<Request>,
}

/// Asks for a request, which may name a job or a device that is not there.
fn ask(banker: &mut Banker, request: Request) -> Answer
    ensures answer { IsAnswer banker.old.state request result banker.new.state }
    ensures claims { banker.new.state.claims ≡ banker.old.state.claims }
{
    if request.job >= banker.processes() || usize::from(request.device) >= banker.resources() {
        return Answer::OverClaim;
    }
    banker.ask(request.job, &Bundle::one(request.device, request.amount))
}

/// Asks the banker for each request in turn. If out of memory, some of them may have been granted.
fn serve(alloc: Global, banker: &mut Banker, requests: &[Request]) -> Result<Round, NoMemory>
    ensures served { IfOk result (λ round. Serves banker.old.state requests.now
        round.granted.items round.waiting.items round.hopeless.items banker.new.state) }
    ensures claims { banker.new.state.claims ≡ banker.old.state.claims }
{
    let mut round = Round {
        granted: Vec::new(alloc),
        waiting: Vec::new(alloc),
        hopeless: Vec::new(alloc),
    };
    for request in requests {
        match ask(banker, *request) {
            Answer::Granted => round.granted.push(*request)?,
            Answer::NotNow => round.waiting.push(*request)?,
            Answer::OverClaim => round.hopeless.push(*request)?,
        }
    }
    Ok(round)
}

/// Prints what came of some requests.
fn tell(rt: &impl Print, round: &Round) -> Result<()> {
    for r in &round.granted {
        println!(rt; "job {} gets {} of device {}", r.job, r.amount, r.device)?;
    }
    for r in &round.waiting {
        println!(rt;
            "job {} waits for {} of device {}",
            r.job, r.amount, r.device
        )?;
    }
    for r in &round.hopeless {
        println!(rt;
            "job {} never gets {} of device {}",
            r.job, r.amount, r.device
        )?;
    }
    Ok(())
}

fn main(rt: HostRuntime) -> Result<()> {
    let alloc = rt.alloc();
    let capital = Capital::new(alloc, &[1, 1])?;
    let claims = Claims::new(alloc, &[&[1, 1], &[1, 1], &[1, 0]])?;
    let mut banker = Banker::new(alloc, &capital, &claims)?;
    // Two jobs need the same tape, device 0, and the same disk, device 1, in opposite order; a third is
    // greedy.
    let requests = [
        Request::new(1, 1, 1),
        Request::new(0, 0, 1),
        Request::new(1, 0, 1),
        Request::new(0, 1, 1),
        Request::new(2, 0, 2),
    ];
    let mut round = serve(alloc, &mut banker, &requests)?;
    tell(&rt, &round)?;
    // In this order each job can have by its turn all that it claims. It ends, and all that it had comes
    // back.
    for job in &banker.order(alloc)? {
        banker.drop_all(usize::from(*job));
        println!(rt; "job {job} ends")?;
        round = serve(alloc, &mut banker, &round.waiting)?;
        tell(&rt, &round)?;
    }
    Ok(())
}
