mod keys;
mod lines;
mod logs;
mod rig;
mod steps;
mod table;
