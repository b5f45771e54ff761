//! The places of a matrix.
ghost use Rattle.math_ntt.specs.MatrixPlaces.{
  RowsAreListed,
  RowsAreFull,
  RowsHoldCells,
  ColumnsAreFull,
  ColumnsHoldCells,
  CellsAreWrittenAlone,
  RowsAreWrittenAlone,
  RowsAreFilledAlone,
};

use math_base::algebra::Object;

/// Item i of the list of rows is row i, item k of row i is the cell in row i and column k, and so
/// is item i of column k. A row has as many items as there are columns, and a column as many as
/// there are rows.
pub fn rows_and_columns<F: Drop>()
    ensures listed { RowsAreListed F }
    ensures row_length { RowsAreFull F }
    ensures row_cells { RowsHoldCells F }
    ensures column_length { ColumnsAreFull F }
    ensures column_cells { ColumnsHoldCells F }
{}

/// What is written at a cell, as a row, or as the first cells of a row that is filled stands there,
/// and every other cell is as it was.
pub fn writes<F: Object>()
    ensures cell { CellsAreWrittenAlone F }
    ensures row { RowsAreWrittenAlone F }
    ensures filled { RowsAreFilledAlone F F.same }
{}
