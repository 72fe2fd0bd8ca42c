mod devices;
mod each_fault;
mod rig;
