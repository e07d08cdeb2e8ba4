// The numbers of the catalogue's format; the contracts tie them to those of specs/Format.antt.

// Document 01's entry.
#[derive(Drop)]
pub struct Row;

impl Row {
    pub const LIMIT: usize = 2048;
}

#[derive(Drop)]
pub struct Column;

impl Column {
    pub const LIMIT: usize = 16;

    // A column's kind stays its byte: `payload_is_valid` and `read_query` are lent the tags of all columns and answer
    // for any byte.
    pub const NUMBER_TAG: u8 = 78;

    pub const TEXT_TAG: u8 = 84;
}

#[derive(Drop)]
pub struct Number;

impl Number {
    pub const SIZE: usize = 4;

    pub const BLANK: u32 = 4294967295;
}

// Order 6's withdrawal mark.
#[derive(Drop)]
pub struct Mark;

impl Mark {
    pub const TAG: u8 = 87;
}

// The first field.
#[derive(Drop)]
pub struct FirstField;

impl FirstField {
    pub const TAG: u8 = 67;

    pub const SIZE: usize = 3;
}
