//! A share of a secret of several elements, as bytes.
//!
//! The bytes are the threshold and the index, each as a length, the identity of the deal, and the
//! list of the values.

ghost use Rattle.std.specs.Prelude.{◌≡◌, ◌<◌, ◌^◌, ◌++◌, length, take, OnOk};
ghost use Rattle.secret_bytes.specs.SecretShares.{share_spelling, AreSameShares, AdmitsShare, scan_share, ShareGrows};
ghost use Rattle.secret_bytes.specs.SecretShareLaws.{share_again, share_apart};

use math_codec::codec::{
    Encoding, Error, LengthRange, Mem, Read, Write, read_len, read_list, roll_back, write_len,
    write_list,
};
use math_fields::goldilocks::F;
use std::alloc::Global;

/// The greatest number of values of a share.
pub const MOST_VALUES: u32 = 1 << 20;

/// A share of a secret of several elements: one value for each.
#[derive(Debug, Drop)]
pub struct SecretShare {
    /// How many shares give the secret back.
    pub threshold: u32,
    /// The index, from 1 on.
    pub index: u32,
    /// What tells this deal from others.
    pub deal: F,
    /// For each element the value of its polynomial at the point of the index.
    pub values: Vec<F>,
}

impl Encoding for SecretShare {
    ghost spelling = { share_spelling };

    ghost alike = { AreSameShares };
}

impl Read for SecretShare {
    /// The greatest number of values.
    type Cfg = u32;

    ghost admits = { AdmitsShare };

    ghost scan = { scan_share };

    ghost grows = { ShareGrows };

    /// Reads the threshold, the index, the deal, and the list of the values. It refuses with the
    /// first fault of these.
    #[tactic(auto, unfolding(crate::specs::SecretShares::scan_share))]
    fn read_cfg(alloc: Global, input: &mut &[u8], cfg: &u32) -> Result<SecretShare, Error> {
        let mut rest = *input;
        let threshold = read_len(alloc, &mut rest)?;
        let index = read_len(alloc, &mut rest)?;
        let deal = F::read_cfg(alloc, &mut rest, &())?;
        let values = read_list(alloc, &mut rest, LengthRange::at_most(*cfg), &())?;
        *input = rest;
        Ok(SecretShare {
            threshold,
            index,
            deal,
            values,
        })
    }

    ghost again = { share_again };

    ghost apart = { share_apart };
}

/// Writes a share. What is written stays where memory runs out.
fn write_parts(alloc: Global, share: &SecretShare, out: &mut Vec<u8>) -> Mem<()>
    requires { length share.now.values.items < 2 ^ 32 }
    ensures ok { OnOk result (out.new.items ≡ out.old.items ++ share_spelling share.now) }
    ensures kept { take (length out.old.items) out.new.items ≡ out.old.items }
{
    write_len(alloc, share.threshold, out)?;
    write_len(alloc, share.index, out)?;
    share.deal.write(alloc, out)?;
    write_list(alloc, &share.values, out)
}

impl Write for SecretShare {
    ghost fits = { λ s. length s.values.items < 2 ^ 32 };

    /// Writes the threshold, the index, the deal, and the list of the values, whose number has to
    /// be below 2^32.
    fn write(&self, alloc: Global, out: &mut Vec<u8>) -> Mem<()> {
        let start = out.len();
        let written = write_parts(alloc, self, out);
        roll_back(alloc, written, start, out)
    }
}
