// FIPS 180-4, section 6.2.2: what one block does to the hash value. Sixteen words of the schedule are kept and worked over.
#![tactic(auto)]

ghost use Rattle.std.specs.Prelude.{◌≡◌, ℕ, suc, ◌+◌, ◌<◌, ◌≤◌, List, length};
ghost use Rattle.sha256_words.specs.Words.{ADD, σ₀, σ₁};
ghost use Rattle.sha256_block.specs.Rounds.{Round, Rounds, block_words, schedule, plus, Compress};
ghost use Rattle.sha256_block.specs.Ring.{Worked};
ghost use Rattle.sha256_block.specs.declared.Eight.{Eight};

use sha256_words::{big_sigma0, big_sigma1, ch, maj, small_sigma0, small_sigma1, word_at};

// Section 4.2.2.
static K: [u32; 64] = [
    0x428a_2f98,
    0x7137_4491,
    0xb5c0_fbcf,
    0xe9b5_dba5,
    0x3956_c25b,
    0x59f1_11f1,
    0x923f_82a4,
    0xab1c_5ed5,
    0xd807_aa98,
    0x1283_5b01,
    0x2431_85be,
    0x550c_7dc3,
    0x72be_5d74,
    0x80de_b1fe,
    0x9bdc_06a7,
    0xc19b_f174,
    0xe49b_69c1,
    0xefbe_4786,
    0x0fc1_9dc6,
    0x240c_a1cc,
    0x2de9_2c6f,
    0x4a74_84aa,
    0x5cb0_a9dc,
    0x76f9_88da,
    0x983e_5152,
    0xa831_c66d,
    0xb003_27c8,
    0xbf59_7fc7,
    0xc6e0_0bf3,
    0xd5a7_9147,
    0x06ca_6351,
    0x1429_2967,
    0x27b7_0a85,
    0x2e1b_2138,
    0x4d2c_6dfc,
    0x5338_0d13,
    0x650a_7354,
    0x766a_0abb,
    0x81c2_c92e,
    0x9272_2c85,
    0xa2bf_e8a1,
    0xa81a_664b,
    0xc24b_8b70,
    0xc76c_51a3,
    0xd192_e819,
    0xd699_0624,
    0xf40e_3585,
    0x106a_a070,
    0x19a4_c116,
    0x1e37_6c08,
    0x2748_774c,
    0x34b0_bcb5,
    0x391c_0cb3,
    0x4ed8_aa4a,
    0x5b9c_ca4f,
    0x682e_6ff3,
    0x748f_82ee,
    0x78a5_636f,
    0x84c8_7814,
    0x8cc7_0208,
    0x90be_fffa,
    0xa450_6ceb,
    0xbef9_a3f7,
    0xc671_78f2,
];

fn next_word(w2: u32, w7: u32, w15: u32, w16: u32) -> u32
    ensures { result ≡ ADD (ADD (ADD (σ₁ w2) w7) (σ₀ w15)) w16 }
{
    small_sigma1(w2)
        .wrapping_add(w7)
        .wrapping_add(small_sigma0(w15))
        .wrapping_add(w16)
}

// The words of a block.
fn words(block: &[u8]) -> [u32; 16]
    requires { length block.now ≡ 64 }
    ensures { result ≡ block_words 16 block.now }
{
    let mut w = [0u32; 16];
    for t in 0..16 {
        w[t] = word_at(block, 4 * t);
    }
    w
}

// The eight working variables, and a hash value.
#[derive(Clone, Copy)]
pub struct Eight {
    pub a: u32,
    pub b: u32,
    pub c: u32,
    pub d: u32,
    pub e: u32,
    pub f: u32,
    pub g: u32,
    pub h: u32,
}

impl Eight {
    fn round(self, k: u32, w: u32) -> Self
        ensures { result ≡ Round k w self }
    {
        let t1 = self
            .h
            .wrapping_add(big_sigma1(self.e))
            .wrapping_add(ch(self.e, self.f, self.g))
            .wrapping_add(k)
            .wrapping_add(w);
        let t2 = big_sigma0(self.a).wrapping_add(maj(self.a, self.b, self.c));
        Self {
            a: t1.wrapping_add(t2),
            b: self.a,
            c: self.b,
            d: self.c,
            e: self.d.wrapping_add(t1),
            f: self.e,
            g: self.f,
            h: self.g,
        }
    }

    // Round t; its word then gives way to the one sixteen after it.
    fn step(self, w: &mut [u32; 16], t: usize) -> Self
        requires { t < 48 }
        ensures { (m : List ℕ) (S : Eight) → Worked m S w.old self t t → Worked m S w.new result (suc t) (suc t) }
    {
        let s = self.round(K[t], w[t % 16]);
        w[t % 16] = next_word(
            w[(t + 14) % 16],
            w[(t + 9) % 16],
            w[(t + 1) % 16],
            w[t % 16],
        );
        s
    }

    // Round t of the last sixteen, whose word stays.
    fn last(self, w: &[u32; 16], t: usize) -> Self
        requires { (48 ≤ t) × (t < 64) }
        ensures { (m : List ℕ) (S : Eight) → Worked m S w.now self 48 t → Worked m S w.now result 48 (suc t) }
    {
        self.round(K[t], w[t % 16])
    }

    // Rounds T to T + 15, written out: a loop over them is a seventh slower (bench/sha256.sh).
    fn sixteen<const T: usize>(self, w: &mut [u32; 16]) -> Self
        requires { T ≤ 32 }
        ensures { (m : List ℕ) (S : Eight) → Worked m S w.old self T T → Worked m S w.new result (T + 16) (T + 16) }
    {
        self.step(w, T)
            .step(w, T + 1)
            .step(w, T + 2)
            .step(w, T + 3)
            .step(w, T + 4)
            .step(w, T + 5)
            .step(w, T + 6)
            .step(w, T + 7)
            .step(w, T + 8)
            .step(w, T + 9)
            .step(w, T + 10)
            .step(w, T + 11)
            .step(w, T + 12)
            .step(w, T + 13)
            .step(w, T + 14)
            .step(w, T + 15)
    }

    // Rounds 48 to 63, written out likewise.
    fn last_sixteen(self, w: &[u32; 16]) -> Self
        ensures { (m : List ℕ) (S : Eight) → Worked m S w.now self 48 48 → Worked m S w.now result 48 64 }
    {
        self.last(w, 48)
            .last(w, 49)
            .last(w, 50)
            .last(w, 51)
            .last(w, 52)
            .last(w, 53)
            .last(w, 54)
            .last(w, 55)
            .last(w, 56)
            .last(w, 57)
            .last(w, 58)
            .last(w, 59)
            .last(w, 60)
            .last(w, 61)
            .last(w, 62)
            .last(w, 63)
    }

    // The rounds of the schedule that begins with the words m.
    fn rounds(self, m: [u32; 16]) -> Self
        ensures { result ≡ Rounds 64 (schedule 48 m) self }
    {
        let mut w = m;
        self.sixteen::<0>(&mut w)
            .sixteen::<16>(&mut w)
            .sixteen::<32>(&mut w)
            .last_sixteen(&w)
    }

    fn plus(self, s: Eight) -> Self
        ensures { result ≡ plus self s }
    {
        Self {
            a: self.a.wrapping_add(s.a),
            b: self.b.wrapping_add(s.b),
            c: self.c.wrapping_add(s.c),
            d: self.d.wrapping_add(s.d),
            e: self.e.wrapping_add(s.e),
            f: self.f.wrapping_add(s.f),
            g: self.g.wrapping_add(s.g),
            h: self.h.wrapping_add(s.h),
        }
    }

    pub fn compress(self, block: &[u8]) -> Self
        requires { length block.now ≡ 64 }
        ensures { result ≡ Compress self block.now }
    {
        self.plus(self.rounds(words(block)))
    }
}
