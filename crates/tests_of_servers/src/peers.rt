//! A site's links: what waits for a peer, the end that receives, why a site ends, numbers of bytes and of milliseconds, and two sites that
//! are linked over TCP. tools/site_link_tests.py shows links that fall, peers that are refused, and sites that end.
mod ends;
mod inlets;
mod linked_sites;
mod queues;
mod times;
