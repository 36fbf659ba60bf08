//! Values, keys, rows, writes and commits, which contracts see as plain data, with their order and their printed form.
#![tactic(auto)]

mod compared;
mod comparison;
mod fixed;
mod key;
mod list;
mod number;
mod row;
mod seek;
mod shape;
mod shared;
mod short;
mod sort;
mod text;
mod threads;
mod value;
mod write;

pub use comparison::compare;
pub use key::KeyValues;
pub use list::List;
pub use number::Number;
pub use pg_chunks::Steps;
pub use row::{Key, Row, copy_key, copy_row, order_keys, order_rows};
pub use seek::seek_row;
pub use shape::{
    ColumnShape, EdgeNo, EdgeShape, ElemId, GraphNo, GraphShape, Shapes, TableNo, TableSet,
    TableShape,
};
pub use shared::Shared;
pub use sort::sort_rows;
pub use text::Text;
pub use threads::shared_by_threads;
pub use value::{Cmp, Dir, Kind, Truth, Value, copy_value, order_values, print_value, same_kind};
pub use write::{Commit, PutFault, Stored, Write, Writes};

const _: () = prove!(size_of::<Text>() == 16);

const _: () = prove!(size_of::<Value>() == 24);

const _: () = prove!(size_of::<KeyValues>() == 32);

const _: () = prove!(size_of::<Row>() == 8);
