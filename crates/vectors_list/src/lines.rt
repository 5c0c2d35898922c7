// A line for each first half and each of its six second halves.
use crate::tallies::{Tally, take};
use listing::Line;
use word::{ByteAddr, Width};

// A second half, the address at which the pair stands, and where the image ends.
#[derive(Clone, Copy)]
struct Case {
    second: u32,
    at: ByteAddr,
    end: usize,
}

// A case whose image ends at its last byte.
fn whole(second: u32, at: u32) -> Case {
    Case {
        second,
        at: ByteAddr(at),
        end: 65536,
    }
}

// vectors_isa takes the same six second halves: a crate between the two programs would hold six numbers and no line fewer.
fn cases(first: u16) -> [Case; 6] {
    let h = u32::from(first);
    let place = (h * 6 + h / 512) % 512;
    let cut = (h * 10 + 21846) % 65536;
    let fits = (h * 10 + 43692) % 65536;
    [
        whole(0, h * 10 % 65536),
        // An instruction of four bytes is cut, and then it just fits.
        Case {
            end: cut as usize + 2,
            ..whole(1, cut)
        },
        Case {
            end: (fits as usize + 4).min(65536),
            ..whole(32767, fits)
        },
        // The image's last 1,024 bytes, and then its first.
        whole(32768, 65534 - 2 * place),
        whole(65535, 2 * place),
        whole((h * 40503 + 12345) % 65536, (h * 10 + 109230) % 65536),
    ]
}

// Where the image ends, `store` leaves the second half out.
fn put_halves(image: &mut [u8], a: ByteAddr, first: u32, second: u32) {
    word::store(Width::Half, image, a, first);
    word::store(Width::Half, image, word::byte_sum(a, 2), second);
}

// The image is 0 again after the line is taken.
fn line_of(image: &mut [u8], first: u16, case: Case) -> Line {
    put_halves(image, case.at, u32::from(first), case.second);
    let line = listing::line_at(image, case.at, case.end);
    put_halves(image, case.at, 0, 0);
    line
}

pub fn take_all(image: &mut [u8; 65536], t: &mut [Tally; 60]) {
    for first in 0..=u16::MAX {
        for case in cases(first) {
            let line = line_of(image, first, case);
            take(t, text::start_part(&line.text, line.length));
        }
    }
}
