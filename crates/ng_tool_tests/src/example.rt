// A log with three frees of blocks that it doesn't make, and four mallocs. An independent model of the heap gives the report.
pub(crate) const LOG: &[u8] =
    b"= Start\n[0x8048209] - 0x8064cc8\n[0x8048209] - 0x8064ce0\n[0x8048209] - 0x8064cf8\n\
[0x80481eb] + 0x8064c48 0x14\n[0x80481eb] + 0x8064c60 0x14\n[0x80481eb] + 0x8064c78 0x14\n[0x80481eb] + 0x8064c90 0x14\n= End\n";

pub(crate) const REPORT: &[u8] = b"1 skip 0x8064cc8\n1 skip 0x8064ce0\n1 skip 0x8064cf8\n\
1 malloc 0x14 0x2040\n1 malloc 0x14 0x2060\n1 malloc 0x14 0x2080\n1 malloc 0x14 0x20a0\n\
logs 1\ncalls 4\ngiven 4\ntaken 0\nresized 0\nnomemory 0\ntoolarge 0\nbadalign 0\nskipped 3\nabsent 0\nleft 4\npages 2\n";
