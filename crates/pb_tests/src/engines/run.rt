//! Texts that are run, and what is written of them.

use crate::calls::{Call, Case, Given, MILLION, THOUSAND, first_wrong};
use crate::texts::{BRANCHES, FAULT, FAULT_IN_A_HOLD, INCREMENTS};
use pb_command_io::Status;
use pb_engines::RunOptions;
use pb_example_texts::first;

/// The programs of `examples/`, in their order.
const EXAMPLES: [Case; 9] = [
    (
        Call::Run(MILLION),
        Given::Text(first::CLOCK),
        Status::Done,
        b"clock.0 print 27
clock.0 print 26
clock.0 print 5
clock end
done
",
    ),
    (
        Call::Run(MILLION),
        Given::Text(first::CUSTOMERS),
        Status::Done,
        b"a.0 grant 4 florin
b.0 grant 2 florin
c.0 grant 1 florin
c.0 grant 3 florin
c.0 return 3 florin
c.0 return 1 florin
a.0 grant 4 florin
c end
a.0 return 4 florin
b.0 grant 1 florin
a.0 return 4 florin
b.0 grant 3 florin
a end
b.0 return 3 florin
b.0 return 1 florin
b.0 return 2 florin
b end
done
",
    ),
    (
        Call::Run(MILLION),
        Given::Text(first::DEVICES),
        Status::Done,
        b"a.0 grant 1 tape
a.0 grant 1 disk
a.0 print 1
a.0 return 1 disk
a.0 return 1 tape
b.0 grant 1 disk
a end
b.0 grant 1 tape
b.0 print 2
b.0 return 1 tape
b.0 return 1 disk
b end
done
",
    ),
    (
        Call::Run(MILLION),
        Given::Text(first::EDGES),
        Status::Fault,
        b"edges.0 print -9223372036854775808
edges.0 print 0
edges.0 print -3
edges.0 print -1
edges.0 print 1
edges.0 fault overflow
done
",
    ),
    (
        Call::Run(MILLION),
        Given::Text(first::HELLO),
        Status::Done,
        b"p.0 print 1
p end
done
",
    ),
    (
        Call::Run(MILLION),
        Given::Text(first::LOST),
        Status::Done,
        b"p.0 print 2
p end
done
",
    ),
    (
        Call::Run(MILLION),
        Given::Text(first::PHILOSOPHERS),
        Status::Done,
        b"hypatia.0 grant 1 north
plato.0 grant 1 east
plato.0 grant 1 west
plato.0 print 1
plato.0 return 1 west
plato.0 return 1 east
spinoza.0 grant 1 west
hypatia.0 grant 1 east
hypatia.0 print 1
hypatia.0 return 1 east
hypatia.0 return 1 north
plato.0 grant 1 east
spinoza.0 grant 1 north
spinoza.0 print 1
spinoza.0 return 1 north
spinoza.0 return 1 west
hypatia.0 grant 1 north
plato.0 grant 1 west
plato.0 print 2
plato.0 return 1 west
plato.0 return 1 east
spinoza.0 grant 1 west
hypatia.0 grant 1 east
plato end
hypatia.0 print 2
hypatia.0 return 1 east
hypatia.0 return 1 north
spinoza.0 grant 1 north
hypatia end
spinoza.0 print 2
spinoza.0 return 1 north
spinoza.0 return 1 west
spinoza end
done
",
    ),
    (
        Call::Run(MILLION),
        Given::Text(first::ROUNDS),
        Status::Done,
        b"p.1 print 0
p.2 print 10
p.1 print 1
p.2 print 11
p.1 print 2
p.2 print 12
p end
done
",
    ),
    (
        Call::Run(MILLION),
        Given::Text(first::TOGETHER),
        Status::Done,
        b"a.0 grant 1 tape 1 disk
a.0 print 1
a.0 return 1 tape 1 disk
b.0 grant 1 disk 1 tape
a end
b.0 print 2
b.0 return 1 disk 1 tape
b end
done
",
    ),
];

#[test]
fn runs_the_examples(rt: HostRuntime) {
    assert!(rt; first_wrong(&rt, &EXAMPLES) == None);
}

const THREE: RunOptions = RunOptions {
    workers: 1,
    quantum: 64,
    steps: 3,
};

const TWO: RunOptions = RunOptions {
    workers: 1,
    quantum: 64,
    steps: 2,
};

const NONE: RunOptions = RunOptions {
    workers: 1,
    quantum: 64,
    steps: 0,
};

const STEPS: [Case; 3] = [
    (
        Call::Run(THREE),
        Given::Text(first::HELLO),
        Status::Done,
        b"p.0 print 1\np end\ndone\n",
    ),
    (
        Call::Run(TWO),
        Given::Text(first::HELLO),
        Status::Limit,
        b"p.0 print 1\nlimit 2\n",
    ),
    (
        Call::Run(NONE),
        Given::Text(first::HELLO),
        Status::Limit,
        b"limit 0\n",
    ),
];

#[test]
fn stops_after_its_steps(rt: HostRuntime) {
    assert!(rt; first_wrong(&rt, &STEPS) == None);
}

const ONE_BY_ONE: RunOptions = RunOptions {
    workers: 1,
    quantum: 1,
    steps: 1_000,
};

/// A quantum of one loses an update, and one of 64 keeps it; branches are taken and faults told.
const EVENTS: [Case; 5] = [
    (
        Call::Run(THOUSAND),
        Given::Text(INCREMENTS),
        Status::Done,
        b"p.0 print 2\np end\ndone\n",
    ),
    (
        Call::Run(ONE_BY_ONE),
        Given::Text(INCREMENTS),
        Status::Done,
        b"p.0 print 1\np end\ndone\n",
    ),
    (
        Call::Run(THOUSAND),
        Given::Text(BRANCHES),
        Status::Done,
        b"p.0 print 9\np.0 print 8\np end\ndone\n",
    ),
    (
        Call::Run(THOUSAND),
        Given::Text(FAULT_IN_A_HOLD),
        Status::Fault,
        b"p.0 grant 1 t\np.0 fault divide\ndone\n",
    ),
    (
        Call::Run(THOUSAND),
        Given::Text(FAULT),
        Status::Fault,
        b"p.1 grant 1 t\np.2 fault divide\ndone\n",
    ),
];

#[test]
fn a_quantum_loses_an_update_and_faults_are_told(rt: HostRuntime) {
    assert!(rt; first_wrong(&rt, &EVENTS) == None);
}

const SEVENTEEN: Call = Call::Run(RunOptions {
    workers: 1,
    quantum: 64,
    steps: 17,
});

const REFUSED: [Case; 6] = [
    (
        SEVENTEEN,
        Given::Text(b""),
        Status::Refused,
        b"refused P1 at 0\n",
    ),
    (
        SEVENTEEN,
        Given::Text(b"// only a comment"),
        Status::Refused,
        b"refused P1 at 0\n",
    ),
    (
        SEVENTEEN,
        Given::Text(b"process p begin print 1 % 2 end"),
        Status::Refused,
        b"refused L2 at 24\n",
    ),
    (
        SEVENTEEN,
        Given::Text(b"process p begin x := 1 end"),
        Status::Refused,
        b"refused N3 at 16\n",
    ),
    (
        SEVENTEEN,
        Given::Text(b"resource t = 3; process p begin hold 4 of t do skip od end"),
        Status::Refused,
        b"refused C1 p t claim 4 capital 3\n",
    ),
    // One byte more than an input may have.
    (
        SEVENTEEN,
        Given::Pieces(&[
            (
                b"                                                                ",
                65_536,
            ),
            (b" ", 1),
        ]),
        Status::Refused,
        b"refused input\n",
    ),
];

#[test]
fn refuses_texts_and_a_long_input(rt: HostRuntime) {
    assert!(rt; first_wrong(&rt, &REFUSED) == None);
}
