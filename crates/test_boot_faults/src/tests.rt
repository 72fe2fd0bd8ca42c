mod areas;
mod boots;
mod devices;
mod each_fault;
mod rig;
mod rows;
