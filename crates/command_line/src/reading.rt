ghost use Rattle.std.specs.Prelude.{◌≡◌, ◌≢◌, ◌≤◌, IfOk, IfSome, IsSomeAnd, None, Ok, OnErr, OnOk, Some};
ghost use Rattle.std.specs.Prelude.{length, map, string_bytes, true, vec_len};
ghost use Rattle.dots.specs.declared.limits.TheConstants.{MOST_PEERS};

use crate::exit::Exit;
use crate::secret_file::{SecretFault, read_secret};
use crate::site_request::{SiteAddresses, SiteRequest};
use crate::steps_request::StepsRequest;
use crate::store_request::StoreRequest;
use crate::words::{
    CommandWords, ScriptWords, SecretWord, ServeWords, SessionWords, SiteWords, StepsWords,
    StoreWords, default_texts, right_words,
};
use ami_session::is_login_word;
use clap::error::ErrorKind;
use dots::{MOST_PEERS, QueueName, SiteId, Text80};
use link_keys::Key;
use replica::{ListFault, QueueList};
use scripts::SiteCount;
use serving_clients::{PlaceCount, ServerSettings, SessionSettings, SettingsFault};
use std::alloc::{AllocError, Global};
use std::io;
use std::net::{IpAddr, SocketAddr};
use std::rt::{Env, Files};
use std::time::Duration;

// How many files an audit may have: a store of each site.
const MOST_FILES: usize = 64;

// The least number of bytes of the secret that sites share.
const LEAST_LINK_SECRET: usize = 16;

// Why a secret is refused, of clients and of links.
const BAD_SECRET: &str = "bad secret";

const BAD_LINK_SECRET: &str = "bad link secret";

/// What the command line asks the program to do.
#[derive(Drop)]
pub enum Request {
    /// To run a script of this number of sites, each with these queues.
    Script(SiteCount, QueueList),
    /// To serve sites by these settings, each with these queues, and with stores in a folder if one is named.
    Serve(ServerSettings, QueueList, Option<StoreRequest>),
    /// To serve one site that is linked to others.
    Site(SiteRequest),
    /// To audit the stores in these files, 1 to 64.
    Audit(Vec<String>),
    /// To list the steps of a store.
    Steps(StepsRequest),
    /// Nothing more: all output is printed, and the program ends with this exit.
    Done(Exit),
}

// Why words are refused that clap accepts.
#[derive(Clone, Copy)]
enum Refusal {
    // They are wrong, for this cause.
    Wrong(&'static str),
    // The address of this peer is wrong, counted from 1.
    WrongPeer(usize),
    // No server has these settings.
    Settings(SettingsFault),
    // The file of a secret, of this kind, can't be read.
    Unreadable(&'static str, io::Error),
    // An allocation was refused.
    Memory,
}

/// Reads the command line, and checks its words. Errors, in order: words that are no text; those of clap, which checks the ranges of
/// numbers too; `--keep` without `--store`; the address of a server; the addresses of a site for clients, for links and of its peers, and
/// more than 64 peers; more than 64 files of an audit; the list of queues; the file of the secret; the secret; the user; the greeting; of a
/// site the file of the secret of links, and that secret.
///
/// Prints the first error to standard error, and returns `Done(WrongWords)`; out of memory, and a file that can't be read, are
/// `Done(Failed)`. Prints help and version to standard output, and returns `Done(Done)`. `Err`: that printing failed. No contract says this
/// (the words are this project's own).
pub fn read_command_line<R: Env + Files + AllocGlobal + Print + Eprint>(
    rt: &R,
) -> io::Result<Request> {
    let alloc = rt.alloc();
    let words = match words(rt) {
        Ok(words) => words,
        Err(error) if error.kind() == io::ErrorKind::OutOfMemory => {
            return refused(rt, Refusal::Memory);
        }
        Err(_) => return refused(rt, Refusal::Wrong("the arguments are no text")),
    };
    let Ok(defaults) = default_texts(alloc) else {
        return refused(rt, Refusal::Memory);
    };
    match right_words(alloc, words.as_slice(), &defaults) {
        Ok(words) => request_or_refused(rt, words),
        Err(error) if error.kind() == ErrorKind::OutOfMemory => refused(rt, Refusal::Memory),
        Err(error) => {
            error.print(rt)?;
            let exit = if error.use_stderr() {
                Exit::WrongWords
            } else {
                Exit::Done
            };
            Ok(Request::Done(exit))
        }
    }
}

// The words of the command line, the program's name first. Errors: the first word that is no text; out of memory.
fn words<R: Env + AllocGlobal>(rt: &R) -> io::Result<Vec<String>> {
    let mut words = Vec::new(rt.alloc());
    for word in std::env::args(rt)? {
        words.push(word)?;
    }
    Ok(words)
}

// What these words ask for. A refusal is printed, and leads to `Done`. `Err`: that printing failed.
fn request_or_refused<R: Files + AllocGlobal + Eprint>(
    rt: &R,
    words: CommandWords<'_>,
) -> io::Result<Request> {
    let request = match &words {
        CommandWords::Script(words) => script_request(rt.alloc(), words),
        CommandWords::Serve(words) => serve_request(rt, words),
        CommandWords::Site(words) => site_request(rt, words),
        CommandWords::Audit(files) => audit_request(rt.alloc(), files),
        CommandWords::Steps(words) => steps_request(rt.alloc(), *words),
    };
    drop(words);
    match request {
        Ok(request) => Ok(request),
        Err(refusal) => refused(rt, refusal),
    }
}

// Prints why words are refused. Returns `Done(Failed)` if a file can't be read or memory ran out, else `Done(WrongWords)`. `Err`: the
// printing failed.
fn refused<R: Eprint>(rt: &R, refusal: Refusal) -> io::Result<Request> {
    let exit = match refusal {
        Refusal::Wrong(why) => {
            eprintln!(rt; "queue_sites: {why}")?;
            Exit::WrongWords
        }
        Refusal::WrongPeer(number) => {
            eprintln!(rt; "queue_sites: bad address of peer {number}")?;
            Exit::WrongWords
        }
        Refusal::Settings(fault) => {
            eprintln!(rt; "queue_sites: {fault}")?;
            Exit::WrongWords
        }
        Refusal::Unreadable(what, error) => {
            eprintln!(rt; "queue_sites: cannot read the {what}: {error}")?;
            Exit::Failed
        }
        Refusal::Memory => {
            eprintln!(rt; "queue_sites: out of memory")?;
            Exit::Failed
        }
    };
    Ok(Request::Done(exit))
}

// What `script` asks for. Refused, in order: a number of sites that isn't 1 to 64 (clap lets none through); the queues, as by `queue_list`.
fn script_request(alloc: Global, words: &ScriptWords<'_>) -> Result<Request, Refusal> {
    let Some(sites) = SiteCount::new(words.sites) else {
        return Err(Refusal::Wrong("bad number of sites"));
    };
    let list = queue_list(alloc, &words.queues)?;
    Ok(Request::Script(sites, list))
}

// What `serve` asks for. Refused, in order: `--keep` without `--store`; the address; what `queue_list` refuses; what `server_settings`
// does; out of memory.
fn serve_request<R: Files + AllocGlobal>(rt: &R, words: &ServeWords<'_>) -> Result<Request, Refusal>
    ensures numbers { (it : _) (list : _) (store : _) → result ≡ Ok (Request.Serve it list store)
        → (it.sites ≡ words.now.sites) × (it.port ≡ words.now.port)
        × (it.session.places ≡ words.now.session.places) }
    ensures volatile { (it : _) (list : _) (store : _)
        → result ≡ Ok (Request.Serve it list store) → words.now.store.path ≡ None
        → store ≡ None }
    ensures path { (it : _) (list : _) (store : _) (path : _)
        → result ≡ Ok (Request.Serve it list store) → words.now.store.path ≡ Some path
        → IsSomeAnd store (λ it. string_bytes it.path ≡ path.now) }
    ensures keeps { (it : _) (list : _) (store : _) → result ≡ Ok (Request.Serve it list store)
        → IfSome store (λ it. it.keeps ≡ words.now.store.keeps) }
{
    check_store(words.store)?;
    let Ok(address) = words.address.parse::<IpAddr>() else {
        return Err(Refusal::Wrong("bad address"));
    };
    let list = queue_list(rt.alloc(), &words.queues)?;
    let settings = match server_settings(rt, words, address) {
        Ok(settings) => settings,
        Err(refusal) => {
            drop(list);
            return Err(refusal);
        }
    };
    match store_of(rt.alloc(), words.store) {
        Ok(store) => Ok(Request::Serve(settings, list, store)),
        Err(_) => {
            drop(list);
            drop(settings);
            Err(Refusal::Memory)
        }
    }
}

// The queues of a site, the settings of its sessions, and the key of its links. Refused, in order: what `queue_list` does; what
// `secrets_of` does.
fn list_and_secrets<R: Files + AllocGlobal>(
    rt: &R,
    words: &SiteWords<'_>,
) -> Result<(QueueList, SessionSettings, Key), Refusal>
    ensures { IfOk result (λ parts. parts.1.places ≡ words.now.session.places) }
{
    let list = queue_list(rt.alloc(), &words.queues)?;
    match secrets_of(rt, words) {
        Ok((session, key)) => Ok((list, session, key)),
        Err(refusal) => {
            drop(list);
            Err(refusal)
        }
    }
}

// What `site` asks for. Refused, in order: a number above 63 (clap lets none through); `--keep` without `--store`; what `addresses_of`
// refuses; what `queue_list` does; what `secrets_of` does; out of memory.
fn site_request<R: Files + AllocGlobal>(rt: &R, words: &SiteWords<'_>) -> Result<Request, Refusal>
    ensures number { (it : _) → result ≡ Ok (Request.Site it) → it.site ≡ words.now.number }
    ensures places { (it : _) → result ≡ Ok (Request.Site it)
        → it.session.places ≡ words.now.session.places }
    ensures clients { (it : _) → result ≡ Ok (Request.Site it)
        → string_bytes it.addresses.clients ≡ words.now.clients.now }
    ensures links { (it : _) → result ≡ Ok (Request.Site it)
        → string_bytes it.addresses.links ≡ words.now.links.now }
    ensures peers { (it : _) → result ≡ Ok (Request.Site it)
        → map string_bytes it.addresses.peers.items
        ≡ map (λ peer. peer.now) words.now.peers.items }
    ensures volatile { (it : _) → result ≡ Ok (Request.Site it)
        → words.now.store.path ≡ None → it.store ≡ None }
    ensures path { (it : _) (path : _) → result ≡ Ok (Request.Site it)
        → words.now.store.path ≡ Some path
        → IsSomeAnd it.store (λ store. string_bytes store.path ≡ path.now) }
    ensures keeps { (it : _) → result ≡ Ok (Request.Site it)
        → IfSome it.store (λ store. store.keeps ≡ words.now.store.keeps) }
{
    let Some(site) = SiteId::new(words.number) else {
        return Err(Refusal::Wrong("bad number of a site"));
    };
    check_store(words.store)?;
    let addresses = addresses_of(rt.alloc(), words)?;
    let (list, session, key) = match list_and_secrets(rt, words) {
        Ok(parts) => parts,
        Err(refusal) => {
            drop(addresses);
            return Err(refusal);
        }
    };
    match store_of(rt.alloc(), words.store) {
        Ok(store) => Ok(Request::Site(SiteRequest {
            site,
            list,
            session,
            key,
            store,
            addresses,
        })),
        Err(_) => {
            drop(addresses);
            drop(list);
            drop(session);
            drop(key);
            Err(Refusal::Memory)
        }
    }
}

// What `audit` asks for. Refused, in order: more than 64 files; out of memory.
fn audit_request(alloc: Global, files: &[&str]) -> Result<Request, Refusal>
    ensures files { (paths : _) → result ≡ Ok (Request.Audit paths)
        → map string_bytes paths.items ≡ map (λ file. file.now) files.now }
    ensures most { (paths : _) → result ≡ Ok (Request.Audit paths) → vec_len paths ≤ MOST_FILES }
{
    if files.len() > MOST_FILES {
        return Err(Refusal::Wrong("more than 64 files"));
    }
    match copies_of(alloc, files) {
        Ok(paths) => Ok(Request::Audit(paths)),
        Err(_) => Err(Refusal::Memory),
    }
}

// What `steps` asks for. Refused: out of memory.
fn steps_request(alloc: Global, words: StepsWords<'_>) -> Result<Request, Refusal>
    ensures path { (it : _) → result ≡ Ok (Request.Steps it)
        → string_bytes it.path ≡ words.entry.path.now }
    ensures frames { (it : _) → result ≡ Ok (Request.Steps it) → it.frames ≡ words.entry.frames }
{
    match String::from_str(alloc, words.path) {
        Ok(path) => Ok(Request::Steps(StepsRequest {
            path,
            frames: words.frames,
        })),
        Err(_) => Err(Refusal::Memory),
    }
}

// Checks that no rows are kept where nothing is stored. Refused: `--keep` without `--store`.
fn check_store(words: StoreWords<'_>) -> Result<(), Refusal>
    ensures keeps { OnErr result (words.entry.keeps ≡ true) }
    ensures nowhere { OnErr result (words.entry.path ≡ None) }
    ensures somewhere { OnOk result (words.entry.keeps ≡ true → words.entry.path ≢ None) }
{
    if words.keeps && words.path.is_none() {
        Err(Refusal::Wrong("--keep without --store"))
    } else {
        Ok(())
    }
}

// Checks the addresses of a site, and how many peers it has. Refused, in order: the address of clients; of links; the first bad one of a
// peer; more than 64 peers.
fn check_addresses(words: &SiteWords<'_>) -> Result<(), Refusal>
    ensures { OnOk result (vec_len words.now.peers ≤ MOST_PEERS) }
{
    if !is_address(words.clients) {
        return Err(Refusal::Wrong("bad address of clients"));
    }
    if !is_address(words.links) {
        return Err(Refusal::Wrong("bad address of links"));
    }
    for (place, peer) in words.peers.iter().enumerate() {
        if !is_address(peer) {
            return Err(Refusal::WrongPeer(place.saturating_add(1)));
        }
    }
    if words.peers.len() > MOST_PEERS {
        return Err(Refusal::Wrong("more than 64 peers"));
    }
    Ok(())
}

// Whether a word is an IPv4 address, an IPv6 address in brackets or the name of a host, a colon, and a port. Any text without a colon, but
// the empty one, counts as a name.
fn is_address(word: &str) -> bool {
    if word.parse::<SocketAddr>().is_ok() {
        return true;
    }
    match word.rsplit_once(':') {
        Some((host, port)) => {
            !host.is_empty() && !host.contains(':') && port.parse::<u16>().is_ok()
        }
        None => false,
    }
}

// The settings of a site's sessions, and the key of its links. Refused, in order: what `session_settings` refuses; what `link_key` does.
fn secrets_of<R: Files>(rt: &R, words: &SiteWords<'_>) -> Result<(SessionSettings, Key), Refusal>
    ensures { IfOk result (λ it. it.0.places ≡ words.now.session.places) }
{
    let session = session_settings(rt, &words.session)?;
    match link_key(rt, words.link_secret) {
        Ok(key) => Ok((session, key)),
        Err(refusal) => {
            drop(session);
            Err(refusal)
        }
    }
}

// The key of links, whose secret is the first line of this file. Refused, in order: a file that can't be read; a first line that is no text
// of 16 to 80 bytes.
fn link_key<R: Files>(rt: &R, file: &str) -> Result<Key, Refusal> {
    let secret = match read_secret(rt, file) {
        Ok(secret) => secret,
        Err(SecretFault::Unreadable(error)) => {
            return Err(Refusal::Unreadable("link secret's file", error));
        }
        Err(SecretFault::NotText) => return Err(Refusal::Wrong(BAD_LINK_SECRET)),
    };
    if secret.as_bytes().len() < LEAST_LINK_SECRET {
        return Err(Refusal::Wrong(BAD_LINK_SECRET));
    }
    Ok(Key::of_secret(secret.as_bytes()))
}

// The addresses of a site. Refused, in order: what `check_addresses` refuses; out of memory.
fn addresses_of(alloc: Global, words: &SiteWords<'_>) -> Result<SiteAddresses, Refusal>
    ensures clients { IfOk result (λ it. string_bytes it.clients ≡ words.now.clients.now) }
    ensures links { IfOk result (λ it. string_bytes it.links ≡ words.now.links.now) }
    ensures peers { IfOk result (λ it. map string_bytes it.peers.items
        ≡ map (λ peer. peer.now) words.now.peers.items) }
{
    check_addresses(words)?;
    let Ok(peers) = copies_of(alloc, &words.peers) else {
        return Err(Refusal::Memory);
    };
    let Ok(clients) = String::from_str(alloc, words.clients) else {
        drop(peers);
        return Err(Refusal::Memory);
    };
    match String::from_str(alloc, words.links) {
        Ok(links) => Ok(SiteAddresses {
            clients,
            links,
            peers,
        }),
        Err(_) => {
            drop(peers);
            drop(clients);
            Err(Refusal::Memory)
        }
    }
}

// Copies of these words, in order. It fails only when out of memory.
fn copies_of(alloc: Global, words: &[&str]) -> Result<Vec<String>, AllocError>
    ensures number { IfOk result (λ copies. vec_len copies ≡ length words.now) }
    ensures texts { IfOk result (λ copies.
        map string_bytes copies.items ≡ map (λ word. word.now) words.now) }
{
    let mut copies = Vec::new(alloc);
    for word in words {
        copies.push(String::from_str(alloc, word)?)?;
    }
    Ok(copies)
}

// The store that is named, if one is. It fails only when out of memory.
fn store_of(alloc: Global, words: StoreWords<'_>) -> Result<Option<StoreRequest>, AllocError>
    ensures none { words.entry.path ≡ None → IfOk result (λ store. store ≡ None) }
    ensures path { (path : _) → words.entry.path ≡ Some path
        → IfOk result (λ store. IsSomeAnd store (λ it. string_bytes it.path ≡ path.now)) }
    ensures keeps { IfOk result (λ store. IfSome store (λ it. it.keeps ≡ words.entry.keeps)) }
{
    match words.path {
        None => Ok(None),
        Some(path) => Ok(Some(StoreRequest {
            path: String::from_str(alloc, path)?,
            keeps: words.keeps,
        })),
    }
}

// The secret that a client logs in with. Refused, in order: a file that can't be read; a secret that is no text of at most 80 bytes, or
// with which no client can log in.
fn secret_of<R: Files>(rt: &R, word: SecretWord<'_>) -> Result<Text80, Refusal> {
    let secret = match word {
        SecretWord::Here(word) => Text80::new(word.as_bytes()).ok(),
        SecretWord::InFile(name) => match read_secret(rt, name) {
            Ok(secret) => Some(secret),
            Err(SecretFault::Unreadable(error)) => {
                return Err(Refusal::Unreadable("secret's file", error));
            }
            Err(SecretFault::NotText) => None,
        },
    };
    let Some(secret) = secret else {
        return Err(Refusal::Wrong(BAD_SECRET));
    };
    if is_login_word(&secret) {
        Ok(secret)
    } else {
        Err(Refusal::Wrong(BAD_SECRET))
    }
}

// The settings of sessions. Refused, in order: a number of places that isn't 1 to 64 (clap lets none through); the secret's file; the
// secret; the user; the greeting.
fn session_settings<R: Files>(rt: &R, words: &SessionWords<'_>) -> Result<SessionSettings, Refusal>
    ensures { IfOk result (λ it. it.places ≡ words.now.places) }
{
    let Some(places) = PlaceCount::new(words.places) else {
        return Err(Refusal::Wrong("bad number of sessions"));
    };
    let secret = secret_of(rt, words.secret)?;
    let Some(user) = login_text(words.user) else {
        drop(secret);
        return Err(Refusal::Wrong("bad user"));
    };
    let mut session = SessionSettings::new(user, secret);
    session.places = places;
    if let Some(greeting) = words.greeting {
        let Ok(greeting) = Text80::new(greeting.as_bytes()) else {
            drop(session);
            return Err(Refusal::Wrong("bad greeting"));
        };
        session.greeting = Some(greeting);
    }
    limit_session(words, &mut session);
    Ok(session)
}

// Sets the limits of a session. 0 seconds of silence are without end; the patience is the limit of a login and of a write.
fn limit_session(words: &SessionWords<'_>, session: &mut SessionSettings)
    ensures { session.new.places ≡ session.old.places }
{
    session.idle = match words.idle {
        0 => None,
        seconds => Some(Duration::from_secs(seconds)),
    };
    session.login = Duration::from_secs(words.patience);
    session.write = Duration::from_secs(words.patience);
    session.is_verbose = words.is_verbose;
}

// The settings of the sites that these words serve at this address. Refused, in order: what `session_settings` refuses; a number of sites
// that isn't 1 to 8; a port that isn't 1 to 65,528 (clap lets neither through).
fn server_settings<R: Files>(
    rt: &R,
    words: &ServeWords<'_>,
    address: IpAddr,
) -> Result<ServerSettings, Refusal>
    ensures sites { IfOk result (λ it. it.sites ≡ words.now.sites) }
    ensures port { IfOk result (λ it. it.port ≡ words.now.port) }
    ensures places { IfOk result (λ it. it.session.places ≡ words.now.session.places) }
{
    let session = session_settings(rt, &words.session)?;
    ServerSettings::new(words.sites, address, words.port, session).map_err(Refusal::Settings)
}

// A word that a client can log in with. `None`: the word is no text of at most 80 bytes, or none can log in with it.
fn login_text(word: &str) -> Option<Text80> {
    let text = Text80::new(word.as_bytes()).ok()?;
    is_login_word(&text).then_some(text)
}

// The list of the queues with these names, in their order. Refused, in order: the first bad name, or out of memory before it; a list that
// `QueueList` refuses.
fn queue_list(alloc: Global, queues: &[&str]) -> Result<QueueList, Refusal> {
    let mut names = Vec::new(alloc);
    for queue in queues {
        let Ok(name) = QueueName::new(queue.as_bytes()) else {
            drop(names);
            return Err(Refusal::Wrong("bad queue list"));
        };
        if names.push(name).is_err() {
            drop(names);
            return Err(Refusal::Memory);
        }
    }
    match QueueList::new(alloc, &names) {
        Ok(list) => Ok(list),
        Err(ListFault::Memory) => Err(Refusal::Memory),
        Err(_) => Err(Refusal::Wrong("bad queue list")),
    }
}
