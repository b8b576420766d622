//! What two sites say over a link: codes, items, acknowledgements, hellos, boxes and rolls. The bytes were worked out by another program,
//! with Python's `hmac` and `hashlib`.
mod boxes;
mod codes;
mod hellos;
mod rolls;
mod shared;
mod streams;
