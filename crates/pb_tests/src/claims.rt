//! Claims of texts, and whether they fit the capital.

use crate::calls::{CHECK, Call, Case, Given, first_wrong};
use pb_claims::OverCapital;
use pb_command_io::Status;

const ARMS: &[u8] = b"resource t = 4;
process p begin
  hold 1 of t do parbegin hold 1 of t do skip od; hold 2 of t do skip od parend od
end";

const BRANCHES: &[u8] = b"resource t = 9;
process p begin
  hold 1 of t do skip od;
  if 0 then hold 2 of t do skip od else hold 3 of t do skip od fi
end";

const TWO: &[u8] = b"resource t = 9; resource u = 9;
process p begin hold 2 of t, 1 of u do while 0 do hold 3 of u do skip od od od end
process q begin skip end";

/// Three processes that claim 5, 5 and 7 of each of two resources, except that the second claims 6 of `u`.
const OVER: &[u8] = b"resource t = 5; resource u = 5;
process p begin hold 5 of t, 5 of u do skip od end
process q begin hold 5 of t, 6 of u do skip od end
process r begin hold 7 of t, 7 of u do skip od end";

/// A process that claims one of each of sixteen resources.
const SIXTEEN: &[u8] = b"resource ra = 2; resource rb = 2; resource rc = 2; resource rd = 2;
resource re = 2; resource rf = 2; resource rg = 2; resource rh = 2;
resource ri = 2; resource rj = 2; resource rk = 2; resource rl = 2;
resource rm = 2; resource rn = 2; resource ro = 2; resource rp = 2;
process p begin
  hold
    1 of ra, 1 of rb, 1 of rc, 1 of rd, 1 of re, 1 of rf, 1 of rg, 1 of rh,
    1 of ri, 1 of rj, 1 of rk, 1 of rl, 1 of rm, 1 of rn, 1 of ro, 1 of rp
  do skip od
end";

/// What is said of it.
const SIXTEEN_CLAIMS: &[u8] =
    b"p claim 1 ra\np claim 1 rb\np claim 1 rc\np claim 1 rd\np claim 1 re\np claim 1 rf\np claim 1 rg\np claim 1 rh\np claim 1 ri\np claim 1 rj\np claim 1 rk\np claim 1 rl\np claim 1 rm\np claim 1 rn\np claim 1 ro\np claim 1 rp\n";

const CLAIMS: [Case; 5] = [
    (
        Call::Claims,
        Given::Text(ARMS),
        Status::Done,
        b"p claim 4 t\n",
    ),
    (
        Call::Claims,
        Given::Text(BRANCHES),
        Status::Done,
        b"p claim 3 t\n",
    ),
    (
        Call::Claims,
        Given::Text(TWO),
        Status::Done,
        b"p claim 2 t\np claim 4 u\nq claim 0 t\nq claim 0 u\n",
    ),
    (
        Call::Claims,
        Given::Text(SIXTEEN),
        Status::Done,
        SIXTEEN_CLAIMS,
    ),
    // The first claim over its capital is named.
    (
        CHECK,
        Given::Text(OVER),
        Status::Refused,
        b"refused C1 q u claim 6 capital 5\n",
    ),
];

#[test]
fn arms_add_up_and_the_greatest_of_a_list_counts(rt: HostRuntime) {
    assert!(rt; first_wrong(&rt, &CLAIMS) == None);
}

#[test]
fn a_claim_over_its_capital_is_said_in_words(rt: HostRuntime) {
    let over = OverCapital {
        process: 0,
        resource: 0,
        claim: 4,
        capital: 3,
    };
    let told = over.to_string(rt.alloc());
    assert!(rt;
        told.is_ok_and(|it| it.as_str() == "process 0 claims 4 of resource 0, of which there are 3")
    );
}
