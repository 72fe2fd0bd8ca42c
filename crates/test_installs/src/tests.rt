mod compared;
mod each_stop;
mod refused;
mod rig;
mod whole;
