// SHA-1 as FIPS 180-4 defines it, of a whole slice or of a message that comes in pieces. A digest goes in by value and the next one comes back.
// Whole blocks are hashed straight from the piece; only what is left of one is kept. No public function asks anything of its caller.

#![tactic(auto)]

ghost use Rattle.std.specs.Prelude.{◌≡◌, ◌+◌, ◌<◌, ◌≤◌, List, ℕ, [], ◌++◌, length, take, slice_index};
ghost use Rattle.std.specs.List.{fold};
ghost use Rattle.sha1_hash.specs.Sha1.{ch, parity, maj, words_of, schedule, Five, five, listed, turn, added, compress, hash_blocks, hash_all, digest_of, sha1};
ghost use Rattle.sha1_hash.specs.Pieces.{filled, digest_after, fed, finished};
ghost use Rattle.sha1_hash.specs.Window.{Held, Before, IsRound};

// The bytes of a block.
const BLOCK: usize = 64;

// The words of the schedule that are held at a time.
const WINDOW: usize = 16;

// The hash value of no blocks.
const INITIAL: [u32; 5] = [
    0x6745_2301,
    0xefcd_ab89,
    0x98ba_dcfe,
    0x1032_5476,
    0xc3d2_e1f0,
];

// The constant of each run of twenty rounds.
const K_CH: u32 = 0x5a82_7999;

const K_PARITY: u32 = 0x6ed9_eba1;

const K_MAJ: u32 = 0x8f1b_bcdc;

const K_LAST: u32 = 0xca62_c1d6;

// Where b has a one c's bit, else d's.
fn ch(b: u32, c: u32, d: u32) -> u32
    ensures { result ≡ ch b c d }
{
    (b & c) ^ (!b & d)
}

// The sum of the bits of b, c and d, modulo 2.
fn parity(b: u32, c: u32, d: u32) -> u32
    ensures { result ≡ parity b c d }
{
    b ^ c ^ d
}

// The bit that two of b, c and d have.
fn maj(b: u32, c: u32, d: u32) -> u32
    ensures { result ≡ maj b c d }
{
    (b & c) ^ (b & d) ^ (c & d)
}

// The schedule's word t. The first sixteen are the block's, and each other is made of those 3, 8, 14 and 16 before it. Word t stands at t modulo 16, so it
// takes the place of the last of these, for which no later word asks.
fn word(w: &mut [u32; 16], t: usize) -> u32
    requires { t < 80 }
    ensures value { (m : List ℕ) → Held m w.old t → result ≡ slice_index (schedule m) t }
    ensures window { (m : List ℕ) → Held m w.old t → Held m w.new (t + 1) }
{
    if WINDOW <= t {
        w[t % WINDOW] = (w[(t + 13) % WINDOW]
            ^ w[(t + 8) % WINDOW]
            ^ w[(t + 2) % WINDOW]
            ^ w[t % WINDOW]).rotate_left(1);
    }
    w[t % WINDOW]
}

// The sixteen words of a block, with which the schedule begins.
fn words(block: &[u8; 64]) -> [u32; 16]
    ensures { result ≡ words_of 16 block.now }
{
    let mut w = [0; 16];
    for t in 0..WINDOW {
        w[t] = wire::be32(block, t * 4);
    }
    w
}

// A round, where the function of b, c and d gave f.
fn turn(v: [u32; 5], f: u32, k: u32, word: u32) -> [u32; 5]
    ensures { result ≡ listed (turn f k word (five v)) }
{
    let [a, b, c, d, e] = v;
    let sum = a
        .rotate_left(5)
        .wrapping_add(f)
        .wrapping_add(e)
        .wrapping_add(k)
        .wrapping_add(word);
    [sum, a, b.rotate_left(30), c, d]
}

// Round t, in which `mix` is the function of b, c and d, and k the constant.
fn round<F: Fn(u32, u32, u32) -> u32>(
    v: [u32; 5],
    w: &mut [u32; 16],
    t: usize,
    mix: &F,
    k: u32,
) -> [u32; 5]
    requires callable { F.IsAlwaysCallable mix.now }
    requires small { t < 80 }
    requires round { IsRound (F.post mix.now) k t }
    ensures { (m : List ℕ) (goal : Five) → Before m goal v w.old t → Before m goal result w.new (t + 1) }
{
    let f = mix(v[1], v[2], v[3]);
    turn(v, f, k, word(w, t))
}

// The twenty rounds from FROM on. Each run has a fixed number of turns and one caller: it is unrolled, and compiled into its caller, and the window need not
// go through memory. There are two rounds to a turn, since the compiler does not unroll twenty turns of this size: with one to a turn, hashing took 1.7 times
// as long.
fn run<F: Fn(u32, u32, u32) -> u32, const FROM: usize>(
    h: [u32; 5],
    w: &mut [u32; 16],
    mix: F,
    k: u32,
) -> [u32; 5]
    requires callable { F.IsAlwaysCallable mix }
    requires small { FROM ≤ 60 }
    requires rounds { (t : ℕ) → FROM ≤ t → t < FROM + 20 → IsRound (F.post mix) k t }
    ensures { (m : List ℕ) (goal : Five) → Before m goal h w.old FROM → Before m goal result w.new (FROM + 20) }
{
    let mut v = h;
    for pair in 0..10 {
        let t = FROM + 2 * pair;
        // under names of their own: a round that is assigned to what it took gets no proof
        let between = round(v, w, t, &mix, k);
        let next = round(between, w, t + 1, &mix, k);
        v = next;
    }
    v
}

// Hashes a block more: h becomes the hash value after it.
fn compress(h: &mut [u32; 5], block: &[u8; 64])
    ensures { h.new ≡ compress h.old block.now }
{
    let mut w = words(block);
    let v = run::<_, 0>(*h, &mut w, ch, K_CH);
    let v = run::<_, 20>(v, &mut w, parity, K_PARITY);
    let v = run::<_, 40>(v, &mut w, maj, K_MAJ);
    let v = run::<_, 60>(v, &mut w, parity, K_LAST);
    for i in 0..5 {
        h[i] = v[i].wrapping_add(h[i]);
    }
}

// The same for blocks that follow each other.
fn compress_all(h: &mut [u32; 5], blocks: &[[u8; 64]])
    ensures { h.new ≡ fold compress h.old blocks.now }
{
    for block in blocks {
        compress(h, block);
    }
}

// Puts the piece behind the n bytes with which the block begins, and zeros behind it.
fn join(block: &mut [u8; 64], n: usize, piece: &[u8])
    requires { n + length piece.now ≤ 64 }
    ensures { block.new ≡ filled (take n block.old ++ piece.now) }
{
    let end = n + piece.len();
    block[n..end].copy_from_slice(piece);
    block[end..].fill(0);
}

// A digest so far: the hash value of the whole blocks, the bytes after them at the start of `block`, and the number of bytes, modulo 2^64. Whatever a caller
// puts into the public fields is a digest (`fed` and `finished` say of which state), so there is no invariant to state.
#[derive(Drop)]
pub struct Digest {
    pub h: [u32; 5],
    pub block: [u8; 64],
    pub len: u64,
}

impl Digest {
    // The digest of nothing.
    pub fn new() -> Digest
        ensures { result ≡ digest_after [] }
    {
        Digest {
            h: INITIAL,
            block: [0; 64],
            len: 0,
        }
    }

    // The digest after one more piece, which first fills up the block that is begun, if one is.
    pub fn feed(mut self, piece: &[u8]) -> Digest
        ensures { result ≡ fed self piece.now }
    {
        let used = self.len as usize % BLOCK;
        let room = (BLOCK - used) % BLOCK;
        self.len = self.len.wrapping_add(piece.len() as u64);
        if piece.len() < room {
            join(&mut self.block, used, piece);
            return self;
        }
        let (start, rest) = piece.split_at(room);
        if used != 0 {
            join(&mut self.block, used, start);
            compress(&mut self.h, &self.block);
        }
        let (blocks, tail) = rest.as_chunks();
        compress_all(&mut self.h, blocks);
        join(&mut self.block, 0, tail);
        self
    }

    // The digest's twenty bytes. The padding is one more piece: a one bit, zeros up to eight bytes before a block's end, and the number of bits in those eight.
    pub fn finish(self) -> [u8; 20]
        ensures { result ≡ finished self }
    {
        let zeros = (119 - self.len as usize % BLOCK) % BLOCK;
        let bits = self.len.wrapping_mul(8);
        let mut pad = [0u8; 72];
        pad[0] = 128;
        wire::put64(&mut pad, zeros + 1, bits);
        bytes_of(self.feed(&pad[..zeros + 9]).h)
    }
}

// The bytes of a hash value.
fn bytes_of(h: [u32; 5]) -> [u8; 20]
    ensures { result ≡ digest_of h }
{
    let mut out = [0u8; 20];
    for k in 0..5 {
        wire::put32(&mut out, k * 4, h[k]);
    }
    out
}

// The digest of a whole slice.
pub fn sha1_of(bytes: &[u8]) -> [u8; 20]
    ensures { result ≡ sha1 bytes.now }
{
    Digest::new().feed(bytes).finish()
}
