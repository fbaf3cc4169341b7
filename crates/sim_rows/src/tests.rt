mod flags;
mod printed;
mod stalls;
