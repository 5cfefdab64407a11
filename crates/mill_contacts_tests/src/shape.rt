mod height;
mod resize;
mod solid;
