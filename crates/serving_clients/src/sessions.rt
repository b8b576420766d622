//! The threads of a site that answer clients, and the connections that they serve.
ghost use Rattle.std.specs.Prelude.{◌≡◌, ◌-◌, ◌<◌, ◌↔◌, IfSome, IsTrue, length, true};

use dots::Memory;
use std::alloc::Global;
use std::net::{Shutdown, TcpStream};
use std::sync::{Arc, Mutex, Wait};

// A connection that is served.
#[derive(Drop)]
struct Connection {
    number: u64,
    stream: Arc<TcpStream, Global>,
}

// How many threads of a site may still answer a client, whether the site was stopped, how many connections it has served, and those that it
// serves.
#[derive(Drop)]
struct Answering {
    left: u32,
    is_stopped: bool,
    begun: u64,
    served: Vec<Connection>,
}

// The threads of a site that answer clients.
#[derive(Drop)]
pub(crate) struct Sessions {
    answering: Mutex<Answering>,
}

// The place of the connection of this number. `None`: it isn't served.
fn place_of(served: &[Connection], number: u64) -> Option<usize>
    ensures { IfSome result (λ place. place < length served.now) }
{
    for place in 0..served.len() {
        if served[place].number == number {
            return Some(place);
        }
    }
    None
}

impl Answering {
    // Counts a thread that answers no more clients. Returns whether it was the last.
    fn end_one(&mut self) -> bool
        ensures fewer { self.new ≡ record self.old { left = self.old.left - 1 } }
        ensures last { IsTrue result ↔ (self.new.left ≡ 0) }
    {
        self.left = self.left.saturating_sub(1);
        self.left == 0
    }

    // Notes a connection that is served from now on, and returns its number. `None`: the site was stopped. Error: `Memory`. In both cases
    // nothing changes.
    fn begin(&mut self, stream: &Arc<TcpStream, Global>) -> Result<Option<u64>, Memory>
        ensures left { self.new.left ≡ self.old.left }
        ensures stopped { self.new.is_stopped ≡ self.old.is_stopped }
    {
        if self.is_stopped {
            return Ok(None);
        }
        let number = self.begun;
        let stream = Arc::try_clone(stream)?;
        self.served.push(Connection { number, stream })?;
        self.begun = number.wrapping_add(1);
        Ok(Some(number))
    }

    // Forgets the connection of this number, if it is served.
    fn end(&mut self, number: u64)
        ensures left { self.new.left ≡ self.old.left }
        ensures stopped { self.new.is_stopped ≡ self.old.is_stopped }
    {
        if let Some(place) = place_of(self.served.as_slice(), number) {
            drop(self.served.swap_remove(place));
        }
    }

    // Stops the site, and shuts down the connections that are served: no reply leaves any more. Failures are ignored.
    fn stop(&mut self)
        ensures { self.new ≡ record self.old { is_stopped = true } }
    {
        self.is_stopped = true;
        for connection in &self.served {
            let _ = connection.stream.shutdown(Shutdown::Both);
        }
    }
}

impl Sessions {
    // `threads` threads, each of which may still answer a client. They serve none yet.
    pub fn new(alloc: Global, threads: u32) -> Sessions {
        Sessions {
            answering: Mutex::new(Answering {
                left: threads,
                is_stopped: false,
                begun: 0,
                served: Vec::new(alloc),
            }),
        }
    }

    // Notes that a thread answers no more clients. Returns whether it was the last.
    pub fn end_one<R: Wait>(&self, rt: &R) -> bool {
        self.answering.lock(rt).end_one()
    }

    // Notes a connection that is served from now on, and returns its number. `None`: the site was stopped. Error: `Memory`. In both cases
    // nothing changes.
    pub fn begin<R: Wait>(
        &self,
        rt: &R,
        stream: &Arc<TcpStream, Global>,
    ) -> Result<Option<u64>, Memory> {
        self.answering.lock(rt).begin(stream)
    }

    // Notes that the connection of this number is no longer served.
    pub fn end<R: Wait>(&self, rt: &R, number: u64) {
        self.answering.lock(rt).end(number);
    }

    // Stops the site: its threads answer no further client, and the connections that they serve are shut down, by which the sessions end. A
    // thread that waits for a client isn't woken.
    pub fn stop<R: Wait>(&self, rt: &R) {
        self.answering.lock(rt).stop();
    }

    // Whether the site was stopped.
    pub fn is_stopped<R: Wait>(&self, rt: &R) -> bool {
        self.answering.lock(rt).is_stopped
    }
}
