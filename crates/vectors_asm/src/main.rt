// Reads the cases of docs/CORPUS.md, "The assembler", assembles each through the proved library, and writes one line for each.
#![tactic(auto)]

use reading::read_full;
use std::io;
use std::io::Read;
use word::{ByteAddr, Width};

// A case's sizes, its text, and the image that it is assembled into.
#[derive(Drop)]
struct Rooms {
    sizes: [u8; 16],
    text: [u8; 16384],
    image: [u8; 4096],
}

impl Rooms {
    // Whether the case keeps to the limits of docs/CORPUS.md. One that doesn't is not answered.
    fn answer_case(&mut self, rt: &impl Print, input: &mut impl Read) -> io::Result<bool> {
        let t = word_at(&self.sizes, 0) as usize;
        let n = word_at(&self.sizes, 4) as usize;
        let start = start_in(&self.sizes);
        if self.text.len() < t || self.image.len() < n {
            return Ok(false);
        }
        read_full(input, &mut self.text[..t])?;
        read_full(input, &mut self.image[..n])?;
        let image = &mut self.image[..];
        assemble(rt, &self.text[..t], start, &mut image[..n])?;
        Ok(true)
    }

    // At most 100,000 cases, so that the loop ends. A loop for vectors and examples too would take a closure for the end that only this program
    // has, a case beyond the limits: no shorter than this one.
    fn answer_all(&mut self, rt: &impl Print, input: &mut impl Read) -> io::Result<()> {
        for _ in 0..100000 {
            if read_full(input, &mut self.sizes)? < 16 || !self.answer_case(rt, input)? {
                return Ok(());
            }
        }
        Ok(())
    }
}

fn assemble(rt: &impl Print, text: &[u8], start: usize, image: &mut [u8]) -> io::Result<()> {
    let a = asm::assemble(text, start, image);
    let reply = asm::reply(a);
    let line = asm::line(a);
    let end = asm::end(a);
    let made = digest::fold_bytes(1, image);
    println!(rt; "{reply}\t{line}\t{end}\t{made}")
}

fn word_at(sizes: &[u8], at: u32) -> u32 {
    word::load(Width::Word, sizes, ByteAddr(at))
}

fn start_in(sizes: &[u8]) -> usize {
    word_at(sizes, 8) as usize * 4294967296 + word_at(sizes, 12) as usize
}

fn main(rt: HostRuntime) -> io::Result<()> {
    let mut rooms = Rooms {
        sizes: [0; 16],
        text: [0; 16384],
        image: [0; 4096],
    };
    rooms.answer_all(&rt, &mut rt.reader())
}
