mod board;
mod boards;
mod dtb;
mod keys;
mod props;
mod records;
