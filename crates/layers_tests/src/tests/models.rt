//! Environments as only a caller of the crate can make them, the numbers of small words, and laws. Facts, rows and what environments are refused
//! for is in tests/program/rows.py and tests/program/causes.py.

use super::cases::must;
use dp_model::{
    Env, EnvError, Fact, NumberRegister, Packet, PacketRegister, PoolSpec, PortSpec, RingSpec,
    Rule, accepted_programs_are_safe, accepted_programs_are_sound, budgets_are_as_they_read,
    longest_prefixes_agree, numbers_are_as_called, pipelines_keep_safe, runs_are_as_they_read,
    runs_keep_safe, turns_stay_ready, whole_runs_end_with_whole_pools, worlds_stay_well_formed,
};

// An environment with this number of tables, and two rings: of the packets of the second this is known.
fn made(tables: u8, fact: Fact) -> Result<Env, EnvError> {
    let loose = Fact::Held {
        share: 0,
        head: 0,
        tail: 0,
        first: 0,
        last: 0,
        segs: 64,
    };
    let pool = PoolSpec {
        count: 4,
        cache: 0,
        room: 2176,
    };
    let port = PortSpec {
        pool: 0,
        segs: 1,
        queue: 4,
    };
    let (whole, ring) = (
        RingSpec {
            count: 2,
            fact: loose,
        },
        RingSpec { count: 2, fact },
    );
    Env::new(&[pool], tables, &[whole, ring], &[port])
}

// Whether a copy of an environment is equal, and one with no table is not.
fn is_equal_to_its_copy(fact: Fact) -> bool {
    match (made(1, fact), made(0, fact)) {
        (Ok(env), Ok(other)) => env.copy() == env && other != env,
        _ => false,
    }
}

// A ring has to say of its packets what they are.
#[test]
fn environments(rt: HostRuntime) {
    let fact = Fact::Held {
        share: 2,
        head: 128,
        tail: 0,
        first: 0,
        last: 0,
        segs: 1,
    };
    let is_so = is_equal_to_its_copy(fact)
        && made(0, Fact::Empty).err() == Some(EnvError::BadRing(1));
    must(&rt, is_so, "environments");
}

// Whether registers, packets and rules have their numbers.
fn have_numbers() -> bool {
    PacketRegister::new(7).number() == 7
        && NumberRegister::new(3).number() == 3
        && Packet::of(70_000).number() == 70_000
        && Rule::J1.number() == 1
        && Rule::J7.number() == 7
}

#[test]
fn laws_can_be_called(rt: HostRuntime) {
    must(&rt, have_numbers(), "numbers");
    accepted_programs_are_safe::<u32>();
    accepted_programs_are_sound();
    turns_stay_ready();
    pipelines_keep_safe();
    runs_keep_safe::<u32>();
    worlds_stay_well_formed();
    longest_prefixes_agree();
    numbers_are_as_called();
    runs_are_as_they_read::<u32>();
    whole_runs_end_with_whole_pools::<u32>();
    budgets_are_as_they_read();
}
