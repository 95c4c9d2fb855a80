// The signature of 48 bytes: read as one binary polynomial, and its remainder by x^31 + x^3 + 1. How it grows by a byte, and how
// it rolls on by one over a log. What requires a signature below 2^31 is for the crates that cut, and is not exported.
#![tactic(auto)]

ghost use Rattle.std.specs.Prelude.{◌≡◌, ◌<◌, ◌^◌};
ghost use Rattle.signature.specs.Signatures.{degree, low_part, span, grown, rolled, signature_of, leaving_table, pushed_table};

mod entries;

// The two tables: what each leaving byte has added to the signature once a byte more has entered, and what each byte that the shift pushes
// out comes back as. Whoever rolls over many bytes takes them once, into a local, and lends them: each use of a constant table copies it.
#[derive(Clone, Copy, Debug, PartialEq, Eq, PartialOrd, Ord, Hash)]
pub struct Tables {
    pub leaving: [u32; 256],
    pub pushed: [u32; 256],
    pub ghost leaving_is: { leaving ≡ leaving_table },
    pub ghost pushed_is: { pushed ≡ pushed_table },
}

impl Tables {
    pub fn new() -> Self {
        Tables {
            leaving: entries::LEAVING,
            pushed: entries::PUSHED,
        }
    }

    // A byte enters: the signature is shifted by 8, what is pushed out of it comes back reduced, and the new byte is added.
    fn push(&self, signature: u32, enters: u8) -> u32
        requires { signature < 2 ^ degree }
        ensures { result ≡ grown degree low_part signature enters }
    {
        let out = (signature >> 23) as usize;
        ((signature & 0x7F_FFFF) << 8) ^ enters as u32 ^ self.pushed[out]
    }

    // The window slides by one byte: one enters, and what the leaving one added is taken away.
    pub fn roll(&self, signature: u32, leaves: u8, enters: u8) -> u32
        requires { signature < 2 ^ degree }
        ensures { result ≡ rolled degree low_part span signature leaves enters }
    {
        self.push(signature, enters) ^ self.leaving[leaves as usize]
    }

    // The signature of a window's bytes.
    pub fn of_window(&self, window: &[u8]) -> u32
        ensures { result ≡ signature_of window.now }
    {
        let mut signature: u32 = 0;
        for byte in window {
            signature = self.push(signature, *byte);
        }
        signature
    }
}
