mod firings;
mod limits;
mod networks;
mod plans;
