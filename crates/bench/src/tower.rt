// A program whose bounds double from reactor to reactor. Reactor 0, the ground, has 21 words. Each of ten
// floors above it has 11, and deploys the reactor below it twice. Main has 9, and deploys floor k: the figure
// is then 2 + 9 + 21 * 2^k + 11 * (2^k - 1), which is 2^(k + 5).
use crate::programs::put_command;

// The header, one shape at 8, twelve entries from 24 on; from 72 on nine commands of the ground, six of each
// floor, four of main.
const BYTES: usize = 656;

// Eight Globals, of which its sink takes the first.
fn put_ground(program: &mut [u8]) {
    put_command(program, 24, [0, 0, 9, 0]);
    for i in 0..8u16 {
        put_command(program, 72 + 8 * i, [4, 0, 0, 0]);
    }
    put_command(program, 136, [8, 0, 0, 0]);
}

fn put_floor(program: &mut [u8], below: u8) {
    put_command(program, 28 + 4 * (below as u16), [0, 2, 4, 0]);
    let at = 144 + 48 * (below as u16);
    put_command(program, at, [1, below, 0, 0]); // location 0  AllocMono
    put_command(program, at + 8, [1, below, 0, 0]); // location 1  AllocMono
    put_command(program, at + 16, [6, 0, 0, 0]); // location 2  React: run 0
    put_command(program, at + 24, [6, 0, 0, 1]); // location 3  React: run 1
    put_command(program, at + 32, [4, 0, 0, 0]); // location 4  Global 0, the time
    put_command(program, at + 40, [8, 0, 4, 0]); // location 5  Sink 0 takes location 4
}

fn put_main(program: &mut [u8], floor: u8) {
    put_command(program, 68, [0, 1, 3, 0]);
    put_command(program, 624, [1, floor, 0, 0]); // location 0  AllocMono
    put_command(program, 632, [6, 0, 0, 0]); // location 1  React: run 0
    put_command(program, 640, [4, 0, 0, 0]); // location 2  Global 0, the time
    put_command(program, 648, [8, 0, 2, 0]); // location 3  Sink 0 takes location 2
}

// The tower whose main deploys this floor.
pub fn tower(floor: u8) -> [u8; BYTES] {
    let mut program = [0u8; BYTES];
    put_command(&mut program, 0, [1, 1, 12, 0]);
    put_command(&mut program, 8, [0, 1, 0, 0]);
    put_ground(&mut program);
    for below in 0..10u8 {
        put_floor(&mut program, below);
    }
    put_main(&mut program, floor);
    program
}
