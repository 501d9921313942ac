// Benches that are made, and those that are not.
use bench::{Bench, BenchFault, State};
use chart::Table;
use ranked::InstanceFault;

// What is said of a duty of 7 states and 2 letters, and a rule of so many states and letters.
fn said(states: u8, letters: u8, room: usize) -> Result<State, BenchFault> {
    let rows = [0; 32];
    let duty = Table::new(7, 2, 0b1, 0b1, &rows)?;
    let rule = Table::new(states, letters, 0b1, 0b1, &rows)?;
    Bench::new(duty, rule, room).map(|bench| bench.state())
}

// A room is of 1 to 65,536 nodes. 5 comes before 6, and 6 before 7.
#[test]
fn rooms_and_order(rt: HostRuntime) {
    let letters = Err(BenchFault::Instance(InstanceFault::Letters));
    let states = Err(BenchFault::Instance(InstanceFault::States));
    let cases = [
        (6, 2, 1, Ok(State::Empty)),
        (6, 2, 65536, Ok(State::Empty)),
        (6, 2, 0, Err(BenchFault::Room)),
        (6, 2, 65537, Err(BenchFault::Room)),
        (7, 2, 1, states),
        (7, 2, 0, states),
        (6, 3, 1, letters),
        (7, 1, 0, letters),
    ];
    for (of_rule, of_letters, room, told) in cases {
        assert_eq!(rt;
            said(of_rule, of_letters, room),
            told,
            "{of_rule} {of_letters} {room}"
        );
    }
}
