//! Matrices as bytes.
//!
//! A matrix is its number of rows and its number of columns, each as a length, and then the list of
//! its cells, row by row: the rows 1, 2 and 3, 0 over `F` are `02 02 04` and four words. The length
//! of the list has to be rows times columns.
//!
//! Faults go from left to right: the size is compared after the cells were read, and a fault of a
//! cell comes before it. The counts are read as numbers of 32 bits and multiplied as numbers of 64,
//! so the product can't overflow.

ghost use Rattle.std.specs.Prelude.{◌≡◌, ◌++◌, ◌≤◌, length, take, IfOk, OnOk, OnErr};
ghost use Rattle.math_codec.specs.Faults.{Agrees, OnMemory};
ghost use Rattle.math_codec.specs.Lengths.{length_spelling};
ghost use Rattle.math_transforms.specs.Matrices.{AreSameMatrices};
ghost use Rattle.math_ntt.specs.MatrixEncoding.{
  matrix_spelling,
  AdmitsMatrix,
  FitsMatrix,
  scan_count,
  scan_matrix,
  MatrixGrows,
};
ghost use Rattle.math_ntt.specs.MatrixEncodingLaws.{matrix_again, matrix_apart};

use super::Matrix;
use math_codec::codec::{
    EncodeSize, Encoding, Error, LengthRange, Mem, Read, Write, len_size, list_size, read_len,
    read_list, roll_back, write_len, write_list,
};
use std::alloc::Global;

/// The number of rows and the number of columns, each as a length, and the list of the cells, row
/// by row.
impl<F: Encoding + Drop> Encoding for Matrix<F> {
    ghost spelling = { λ m. matrix_spelling F.spelling m };

    ghost alike = { λ m n. AreSameMatrices F.alike m n };
}

/// Reads a length of at most `most` from the front of `input`, and moves `input` to what follows
/// it.
#[tactic(auto, unfolding(crate::specs::MatrixEncoding::scan_count))]
fn read_count(alloc: Global, input: &mut &[u8], most: u32) -> Result<u32, Error>
    ensures counted { IfOk result (λ n. n ≤ most) }
    ensures taken { IfOk result (λ n. input.old.now ≡ length_spelling n ++ input.new.now) }
    ensures stays { OnErr result (input.new ≡ input.old) }
    ensures memory { OnMemory result ⊥ }
    ensures exact { Agrees (λ n. (n, input.new.now)) result (scan_count most input.old.now) }
{
    let mut rest = *input;
    let count = read_len(alloc, &mut rest)?;
    if count > most {
        return Err(Error::InvalidLength(count));
    }
    *input = rest;
    Ok(count)
}

impl<F: Read + Drop> Read for Matrix<F> {
    /// The greatest count for rows, for columns and for cells, and the configuration of each cell.
    type Cfg = (u32, F::Cfg);

    ghost admits = { λ cfg m. AdmitsMatrix cfg.0 (F.admits cfg.1) m };

    ghost scan = { λ cfg. scan_matrix cfg.0 (F.scan cfg.1) };

    ghost grows = { λ cfg. MatrixGrows cfg.0 (F.scan cfg.1) (F.grows cfg.1) };

    /// Reads the number of rows, the number of columns, and the list of the cells.
    ///
    /// It refuses with the first fault of these, in this order; a count above the greatest one is
    /// `InvalidLength`. If the list does not have rows times columns cells, it then refuses with
    /// `Invalid`.
    ///
    /// A matrix without columns may have as many rows as the greatest count, and no byte stands for
    /// them. If you go over the rows of a matrix from outside, choose a count that limits their
    /// number.
    #[tactic(auto, unfolding(crate::specs::MatrixEncoding::scan_matrix))]
    fn read_cfg(alloc: Global, input: &mut &[u8], cfg: &(u32, F::Cfg)) -> Result<Matrix<F>, Error> {
        let mut rest = *input;
        let rows = read_count(alloc, &mut rest, cfg.0)?;
        let cols = read_count(alloc, &mut rest, cfg.0)?;
        let cells = read_list(alloc, &mut rest, LengthRange::at_most(cfg.0), &cfg.1)?;
        if cells.len() as u64 != u64::from(rows) * u64::from(cols) {
            return Err(Error::Invalid("Matrix", "matrix element count does not match dimensions"));
        }
        *input = rest;
        Ok(Matrix {
            rows: rows as usize,
            cols: cols as usize,
            cells,
        })
    }

    ghost again = { λ cfg m rest h.
        matrix_again F.spelling (F.admits cfg.1) (F.scan cfg.1) (F.again cfg.1) cfg.0 m rest h };

    ghost apart = { λ cfg m n x y h k e.
        matrix_apart F.spelling (F.admits cfg.1) F.alike (F.apart cfg.1) cfg.0 m n x y h k e };
}

/// Writes a matrix. What is written stays where memory runs out.
fn write_parts<F: Write + Drop>(alloc: Global, m: &Matrix<F>, out: &mut Vec<u8>) -> Mem<()>
    requires { FitsMatrix F.fits m.now }
    ensures ok { OnOk result (out.new.items ≡ out.old.items ++ matrix_spelling F.spelling m.now) }
    ensures kept { take (length out.old.items) out.new.items ≡ out.old.items }
{
    write_len(alloc, m.rows as u32, out)?;
    write_len(alloc, m.cols as u32, out)?;
    write_list(alloc, &m.cells, out)?;
    Ok(())
}

impl<F: Write + Drop> Write for Matrix<F> {
    ghost fits = { λ m. FitsMatrix F.fits m };

    /// Writes the number of rows, the number of columns, and the list of the cells. These two
    /// numbers and the number of cells have to be below 2^32.
    fn write(&self, alloc: Global, out: &mut Vec<u8>) -> Mem<()> {
        let start = out.len();
        let written = write_parts(alloc, self, out);
        roll_back(alloc, written, start, out)
    }
}

impl<F: EncodeSize + Drop> EncodeSize for Matrix<F> {
    /// The number of bytes of the two lengths and of the list of the cells, which has to fit.
    fn encode_size(&self) -> usize {
        len_size(self.rows) + len_size(self.cols) + list_size(&self.cells)
    }
}
