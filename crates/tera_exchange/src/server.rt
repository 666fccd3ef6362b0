//! `tera server`.

ghost use Rattle.std.specs.Prelude.{◌≡◌, ◌<◌, ◌++◌, ℕ, List, [], length, true, false, map, string_bytes, Option, None, IfErr, IfOk, OnOk, OnErr, unwrap_or};
ghost use Rattle.std.specs.Io.KnownBytes.{Appends, Consumes, IsAtEnd};
ghost use Rattle.std.specs.List.{flat_map};
ghost use Rattle.std.specs.Option.{option_map};
ghost use Rattle.json_rpc.specs.Outgoing.{Outgoing, nothing};
ghost use Rattle.message_frames.specs.Shown.{Message, shown};
ghost use Rattle.message_frames.specs.Representing.{Represents};
ghost use Rattle.message_frames.specs.Writing.{frame as frame_text};
ghost use Rattle.tera_files.specs.Names.{texts};
ghost use Rattle.tera_lexer.specs.grammar.Marks.{Marks};
ghost use Rattle.tera_program_parts.specs.Markers.{IsUnfit};
ghost use Rattle.tera_exchange.specs.Serving.{Takes, Publishes, PublishesAll, Rests, IsLoaded, IsUnloaded, AreKnownGiven, AreKnownGivenInPart, AreLoaded, AreLoadedInPart, AreLibrariesGiven, AreLibrariesGivenInPart, AreListed, AreListedGiven, AreSomeGiven, AreSomeGivenInPart, AreListedGivenInPart, IsFolderGiven, IsFolderGivenInPart, IsOpenGiven, IsOpenGivenInPart, extensions, extensions_in, libraries_for, AreGiven, AreGivenInPart, AreGivenAnew, AreGivenAnewInPart, AreNamesSaid, IsNameSaid, IsGivenInPart, Gives, IsNew, IsTalking, IsWaiting, IsServedBy, EndsAsServed, AreFit, AreSet, is_early};
ghost use Rattle.tera_server.specs.Naming.{OnlyNames};
ghost use Rattle.tera_editor.specs.Sites.{NoneDue, due_of_sites, used_view};
ghost use Rattle.tera_server.specs.States.{NeedsChanged, needed_view, needed_of};
ghost use Rattle.tera_editor.specs.KnownFiles.{is_known};
ghost use Rattle.tera_server.specs.declared.server.Server.{Server};

use crate::aside::{is_aside, is_in_any, is_open, is_read};
use crate::disk::{Kind, kind_of, on_disk};
use crate::sending::send;
use crate::settings::found_for_folder;
use json_rpc::Outbox;
use message_frames::{Frame, Frames};
use settings_files::NAME;
use std::alloc::{AllocError, Global};
use std::io;
use std::io::{Read, Write};
use std::path::Path;
use std::rt::Files;
use tera_files::{Found, Selection, ends_in, files_of};
use tera_program_parts::excluded::{is_excluded, leave_out_paths};
use tera_program_parts::extensions::EXTENSIONS;
use tera_program_parts::markers::{Unfit, other_markers_of, print_unfit};
use tera_program_parts::output::print_error;
use tera_program_parts::settings::references;
use tera_program_parts::site::may_be;
use tera_program_parts::status::Ended;
use tera_server::{Ended as Finished, FoundSettings, Markers, Needed, OnDisk, Server, UsedName};

// The state of the exchange after the messages that came.
#[derive(Clone, Copy)]
pub(crate) enum Left {
    /// One of them ended it.
    Ended(Finished),
    /// No whole message is left. What was asked for was given, and findings were published.
    AtRest,
    /// No whole message is left, but giving or publishing failed to allocate. It is done the next time.
    Short,
}

// How an exchange went.
#[derive(Clone, Copy)]
struct Served {
    finished: Finished,
    // Whether giving or publishing something failed to allocate, and had to wait.
    short: bool,
}

// The most bytes of a message.
const LONGEST: usize = 0x1000_0000;

// How many bytes are read at once.
const PIECE: usize = 0x1_0000;

/// Serves an editor over standard input and output, until it ends the exchange. All templates have the six markers in
/// these words; without words, those of their settings.
pub fn run<R: Files + Input + Print + Eprint + AllocGlobal + Clone + Drop>(
    rt: &R,
    markers: Option<&str>,
) -> Ended
    ensures fit { result.failed ≡ false → (others : Option Marks)
        × AreFit (option_map (λ t. t.now) markers.entry) others }
    ensures failed { result.failed ≡ true → result.found ≡ false }
{
    ended_over(rt, markers, &mut rt.reader(), &mut io::writer(rt))
}

// Serves an editor with any reader and any writer. Prints on standard error what went wrong.
fn ended_over<F: Files + Input + Eprint + AllocGlobal + Clone + Drop, R: Read, W: Write>(
    rt: &F,
    markers: Option<&str>,
    reader: &mut R,
    writer: &mut W,
) -> Ended
    ensures served { result.failed ≡ false → EndsAsServed (option_map (λ t. t.now) markers.entry) LONGEST result.found
        (R.remaining reader.old) (R.remaining reader.new) (W.contents writer.old) (W.contents writer.new) }
    ensures failed { result.failed ≡ true → result.found ≡ false }
{
    let server = match server_with(rt.alloc(), markers) {
        Ok(server) => server,
        Err(why) => {
            print_unfit(rt, &why);
            return Ended::failed();
        }
    };
    match serve(rt, server, reader, writer) {
        Ok(served) => ended_after(rt, served),
        Err(error) => {
            print_error(rt, "tera", why(&error));
            Ended::failed()
        }
    }
}

// How the program ends after an exchange. Prints an error if an allocation for a part of it failed.
fn ended_after<F: Eprint + AllocGlobal>(rt: &F, served: Served) -> Ended
    ensures { result ≡ record { found = is_early served.finished; failed = false } }
{
    if served.short {
        let why = "out of memory: findings were published late, or not at all";
        print_error(rt, "tera", why);
    }
    Ended {
        found: served.finished == Finished::Early,
        failed: false,
    }
}

fn why(error: &io::Error) -> &'static str {
    if error.kind() == io::ErrorKind::OutOfMemory {
        "out of memory"
    } else {
        "standard input or output failed"
    }
}

// A server to which nothing was sent. All templates have the markers in these words, if there are words.
fn server_with(alloc: Global, words: Option<&str>) -> Result<Server, Unfit>
    ensures new { IfOk result IsNew }
    ensures given { IfOk result (λ s. AreSet (option_map (λ t. t.now) words.entry) s.settings.markers) }
    ensures unfit { IfErr result (IsUnfit (option_map (λ t. t.now) words.entry)) }
{
    let mut server = Server::new(alloc);
    if words.is_none() {
        return Ok(server);
    }
    server.set_markers(markers_of(alloc, words)?);
    Ok(server)
}

// The markers in these words, if they are not the default ones.
fn markers_of(alloc: Global, words: Option<&str>) -> Result<Option<Markers>, Unfit>
    ensures fit { IfOk result (AreFit (option_map (λ t. t.now) words.entry)) }
    ensures unfit { IfErr result (IsUnfit (option_map (λ t. t.now) words.entry)) }
{
    match other_markers_of(alloc, words)? {
        Some(markers) => Ok(Markers::of(alloc, markers)),
        None => Ok(None),
    }
}

// Answers the messages that come from the reader, until one ends the exchange, or the reader has no more.
fn serve<F: Files + Input + AllocGlobal + Clone + Drop, R: Read, W: Write>(
    files: &F,
    server: Server,
    reader: &mut R,
    writer: &mut W,
) -> io::Result<Served>
    requires { IsNew server }
    ensures { IfOk result (λ served. IsServedBy server LONGEST served.finished served.short
        (R.remaining reader.old) (R.remaining reader.new) (W.contents writer.old) (W.contents writer.new)) }
{
    let alloc = files.alloc();
    let mut server = server;
    let mut out = Outbox::new(alloc)?;
    let mut frames = Frames::new(alloc, LONGEST);
    let mut piece = Vec::from_elem(alloc, 0u8, PIECE)?;
    let mut short = false;
    'pieces: for _ in 0..u64::MAX {
        if !take_piece(reader, &mut piece, &mut frames)? {
            let finished = server.ended();
            return Ok(Served { finished, short });
        }
        match answer_all(files, &mut server, &mut frames, writer, &mut out)? {
            Left::Ended(finished) => return Ok(Served { finished, short }),
            Left::AtRest => {}
            Left::Short => short = true,
        }
    }
    Err(io::ErrorKind::Other.into())
}

// Reads what has come. The result is false if nothing comes any more.
fn take_piece<R: Read>(reader: &mut R, piece: &mut Vec<u8>, frames: &mut Frames) -> io::Result<bool>
    requires { 0 < length piece.old.items }
    ensures limit { frames.new.limit ≡ frames.old.limit }
    ensures room { length piece.new.items ≡ length piece.old.items }
    ensures came { IfOk result (λ more. (bytes : List ℕ) × Consumes (R.remaining reader.old) (R.remaining reader.new) bytes
        × ((pending : List ℕ) → Represents frames.old pending → Represents frames.new (pending ++ bytes))
        × (more ≡ false → (bytes ≡ []) × IsAtEnd (R.remaining reader.new))) }
{
    let count = reader.read(piece.as_mut_slice())?;
    let (came, _) = piece.as_slice().split_at(count);
    frames.push(came)?;
    Ok(count > 0)
}

// Answers the messages that have come whole. After the last one, what is asked for is given, and findings are
// published.
fn answer_all<F: Files + Input + AllocGlobal + Clone + Drop, W: Write>(
    files: &F,
    server: &mut Server,
    frames: &mut Frames,
    writer: &mut W,
    out: &mut Outbox,
) -> io::Result<Left>
    requires { out.old ≡ nothing }
    ensures limit { frames.new.limit ≡ frames.old.limit }
    ensures talked { IfOk result (λ left. (start : Server) (bytes : List ℕ) (began : Option (List ℕ)) →
        IsTalking frames.old.limit None start server.old bytes frames.old began (W.contents writer.old) →
        IsWaiting frames.old.limit left start server.new bytes frames.new began (W.contents writer.new)) }
    ensures sent { OnOk result (out.new ≡ nothing) }
{
    let alloc = files.alloc();
    'messages: for _ in 0..u64::MAX {
        match frames.next(alloc) {
            Ok(next) => match next {
                Frame::Wait => return come_to_rest(files, server, writer, out),
                frame => {
                    if let Some(finished) = answer(alloc, server, frame, writer, out)? {
                        return Ok(Left::Ended(finished));
                    }
                }
            },
            Err(AllocError) => {
                frames.skip();
                miss(alloc, server, writer, out)?;
            }
        }
        // If this fails to allocate, it is asked for again, and the exchange goes on.
        let _given = give(files, server);
    }
    Err(io::ErrorKind::Other.into())
}

// An allocation for a message failed.
fn miss<W: Write>(
    alloc: Global,
    server: &mut Server,
    writer: &mut W,
    out: &mut Outbox,
) -> io::Result<()>
    requires { out.old ≡ nothing }
    ensures took { OnOk result ((sent : Outgoing) × ((message : List ℕ) → Takes server.old (Message message) None server.new sent)
        × Appends (W.contents writer.old) (W.contents writer.new) (flat_map frame_text sent.sent)) }
    ensures sent { OnOk result (out.new ≡ nothing) }
{
    server.miss(alloc, out);
    send(alloc, writer, out)?;
    Ok(())
}

// Takes what came, and writes what is sent because of it.
fn answer<W: Write>(
    alloc: Global,
    server: &mut Server,
    next: Frame,
    writer: &mut W,
    out: &mut Outbox,
) -> io::Result<Option<Finished>>
    requires { out.old ≡ nothing }
    ensures took { IfOk result (λ finished. (sent : Outgoing) × Takes server.old (shown next) finished server.new sent
        × Appends (W.contents writer.old) (W.contents writer.new) (flat_map frame_text sent.sent)) }
    ensures sent { OnOk result (out.new ≡ nothing) }
{
    let finished = take(alloc, server, next, out);
    send(alloc, writer, out)?;
    Ok(finished)
}

fn take(alloc: Global, server: &mut Server, next: Frame, out: &mut Outbox) -> Option<Finished>
    requires { out.old ≡ nothing }
    ensures { Takes server.old (shown next) result server.new out.new }
{
    match next {
        Frame::Message(message) => handle(alloc, server, message, out),
        Frame::TooLong(_) => {
            server.miss(alloc, out);
            None
        }
        Frame::Bad => {
            server.refuse(alloc, out);
            None
        }
        Frame::Wait => None,
    }
}

// Takes a message. If that fails to allocate, the exchange goes on.
fn handle(
    alloc: Global,
    server: &mut Server,
    message: Vec<u8>,
    out: &mut Outbox,
) -> Option<Finished>
    requires { out.old ≡ nothing }
    ensures { Takes server.old (Message message.items) result server.new out.new }
{
    match server.handle(alloc, message, out) {
        Ok(finished) => finished,
        Err(AllocError) => None,
    }
}

// Gives what is still asked for, and publishes findings. What fails to allocate is done the next time.
fn come_to_rest<F: Files + Input + AllocGlobal + Clone + Drop, W: Write>(
    files: &F,
    server: &mut Server,
    writer: &mut W,
    out: &mut Outbox,
) -> io::Result<Left>
    requires { out.old ≡ nothing }
    ensures rests { IfOk result (λ left. Rests left server.old server.new
        (W.contents writer.old) (W.contents writer.new)) }
    ensures sent { OnOk result (out.new ≡ nothing) }
{
    let given = give(files, server);
    let published = publish(files, server, out);
    send(files.alloc(), writer, out)?;
    match given.and(published) {
        Ok(()) => Ok(Left::AtRest),
        Err(AllocError) => Ok(Left::Short),
    }
}

// Publishes findings. If it is not known of some names whether there is a file, that is set first. If this fails to
// allocate, findings are published all the same.
fn publish<F: Files + Input + AllocGlobal>(
    files: &F,
    server: &mut Server,
    out: &mut Outbox,
) -> Result<(), AllocError>
    requires { out.old ≡ nothing }
    ensures published { Publishes server.old server.new out.new }
    ensures all { OnOk result (PublishesAll server.old server.new out.new) }
    ensures needed { server.new.needed ≡ server.old.needed }
{
    let due = server.settle_unless_due(files.alloc(), out)?;
    if due.is_empty() {
        return Ok(());
    }
    let said = say_names(files, server, &due);
    server.settle(files.alloc(), out)?;
    said
}

// Sets for each of these names whether there may be a file of it.
fn say_names<F: Files + Input + AllocGlobal>(
    files: &F,
    server: &mut Server,
    due: &Vec<UsedName>,
) -> Result<(), AllocError>
    requires { map used_view due.now.items ≡ due_of_sites server.old.sites }
    ensures said { AreNamesSaid server.old server.new }
    ensures all { OnOk result (NoneDue server.new.sites) }
{
    for used in due {
        say_name(files, server, used)?;
    }
    Ok(())
}

fn say_name<F: Files + Input + AllocGlobal>(
    files: &F,
    server: &mut Server,
    used: &UsedName,
) -> Result<(), AllocError>
    ensures only { OnlyNames server.old server.new }
    ensures said { OnOk result (IsNameSaid (used_view used.now) server.old server.new) }
{
    let is_there = may_be(files, folder_at(used.root.as_str()), used.name.as_str())?;
    server.set_presence(files.alloc(), used, is_there)
}

// The folder of a root, which has no slash at its end.
fn folder_at(root: &str) -> &str {
    if root.is_empty() { "/" } else { root }
}

// Gives the server the texts of files that it asks for.
fn give<F: Files + Input + AllocGlobal + Clone + Drop>(
    files: &F,
    server: &mut Server,
) -> Result<(), AllocError>
    ensures given { Gives server.old server.new }
    ensures all { OnOk result (needed_of server.new ≡ []) }
{
    'needed: for _ in 0..u64::MAX {
        match server.take_needed() {
            Some(needed) => give_or_ask_again(files, server, needed)?,
            None => return Ok(()),
        }
    }
    Err(AllocError)
}

// Gives one thing that was asked for. If that fails to allocate, it is asked for again.
fn give_or_ask_again<F: Files + Input + AllocGlobal + Clone + Drop>(
    files: &F,
    server: &mut Server,
    needed: Needed,
) -> Result<(), AllocError>
    ensures given { OnOk result (AreGivenAnew (needed_view needed) server.old server.new) }
    ensures in_part { OnErr result (IsGivenInPart (needed_view needed) server.old server.new) }
{
    match give_anew(files, server, &needed) {
        Ok(()) => Ok(()),
        Err(AllocError) => {
            server.ask_again(needed)?;
            Err(AllocError)
        }
    }
}

// Something changed on disk, so files of names that no template has may have come or gone too.
fn give_anew<F: Files + Input + AllocGlobal + Clone + Drop>(
    files: &F,
    server: &mut Server,
    needed: &Needed,
) -> Result<(), AllocError>
    ensures given { OnOk result (AreGivenAnew (needed_view needed.now) server.old server.new) }
    ensures in_part { OnErr result (AreGivenAnewInPart (needed_view needed.now) server.old server.new) }
{
    server.look_again();
    give_needed(files, server, needed)
}

fn give_needed<F: Files + Input + AllocGlobal + Clone + Drop>(
    files: &F,
    server: &mut Server,
    needed: &Needed,
) -> Result<(), AllocError>
    ensures given { OnOk result (AreGiven (needed_view needed.now) server.old server.new) }
    ensures in_part { OnErr result (AreGivenInPart (needed_view needed.now) server.old server.new) }
{
    match needed {
        Needed::Folder(path) => give_with_settings(files, server, path.as_str()),
        Needed::File(path) => give_single(files, server, path.as_str()),
        Needed::Changed(path) => give_changed(files, server, path.as_str()),
    }
}

// Gives the settings for a folder, and then its files.
fn give_with_settings<F: Files + Input + AllocGlobal + Clone + Drop>(
    files: &F,
    server: &mut Server,
    folder: &str,
) -> Result<(), AllocError>
    ensures given { OnOk result (IsOpenGiven folder.now server.old server.new) }
    ensures in_part { OnErr result (IsOpenGivenInPart folder.now server.old server.new) }
{
    let found = settings_of(files, server, folder)?;
    server.configure(files.alloc(), folder, found)?;
    give_folder(files, server, folder)?;
    give_apart(files, server)?;
    give_libraries(files, server, folder)
}

// A known file that is in no open folder and in no library loses its text.
fn give_apart<F: Files + Input + AllocGlobal>(
    files: &F,
    server: &mut Server,
) -> Result<(), AllocError>
    ensures given { OnOk result (AreSomeGiven server.old server.new) }
    ensures in_part { OnErr result (AreSomeGivenInPart server.old server.new) }
{
    let apart = apart(files.alloc(), server)?;
    for path in &apart {
        give_nothing(files, server, path.as_str())?;
    }
    Ok(())
}

fn apart(alloc: Global, server: &Server) -> Result<Vec<String>, AllocError> {
    let mut apart = Vec::new(alloc);
    for path in server.known(alloc)? {
        if !is_in_any(server.folders(), path.as_str()) && !server.is_in_library(path.as_str()) {
            apart.push(path)?;
        }
    }
    Ok(apart)
}

// Gives the templates of the libraries of the folder.
fn give_libraries<F: Files + Input + AllocGlobal + Clone + Drop>(
    files: &F,
    server: &mut Server,
    folder: &str,
) -> Result<(), AllocError>
    ensures given { OnOk result (AreLibrariesGiven folder.now server.old server.new) }
    ensures in_part { OnErr result (AreLibrariesGivenInPart folder.now server.old server.new) }
{
    let found = libraries(files, server, folder)?;
    give_files(files, server, &found.files)
}

fn libraries<F: Files + AllocGlobal + Clone + Drop>(
    files: &F,
    server: &Server,
    folder: &str,
) -> Result<Found, AllocError>
    ensures { IfOk result (λ found. AreListed (extensions_in server.now folder.now) (libraries_for server.now folder.now)
        (map string_bytes found.files.items)) }
{
    match server.settings_for(folder) {
        Some(settings) => {
            let paths = references(files.alloc(), &settings.libraries)?;
            listed(files, server, folder, paths.as_slice())
        }
        None => listed(files, server, folder, &[]),
    }
}

// The settings for a folder; none, if it is not open.
fn settings_of<F: Files + Input + AllocGlobal>(
    files: &F,
    server: &Server,
    folder: &str,
) -> Result<FoundSettings, AllocError> {
    if is_open(server.folders(), folder) {
        found_for_folder(files, folder)
    } else {
        Ok(FoundSettings::Nothing)
    }
}

// Gives what is under a path now: a folder, a file or nothing. If that may change the settings, the open folders are
// asked for again.
fn give_changed<F: Files + Input + AllocGlobal + Clone + Drop>(
    files: &F,
    server: &mut Server,
    path: &str,
) -> Result<(), AllocError>
    ensures given { OnOk result (AreGiven (NeedsChanged path.now) server.old server.new) }
    ensures in_part { OnErr result (AreGivenInPart (NeedsChanged path.now) server.old server.new) }
{
    if may_change_settings(files, server, path) {
        return server.ask_for_folders(files.alloc());
    }
    match kind_of(files, path) {
        Kind::Folder => give_folder(files, server, path),
        Kind::File => give_template(files, server, path),
        Kind::Nothing => give_gone(files, server, path),
    }
}

// Whether the path may be a file of settings, or is new while something is wrong in settings, which may name it.
fn may_change_settings(files: &impl Files, server: &Server, path: &str) -> bool {
    if Path::new(path).file_name() == Some(NAME) {
        return true;
    }
    server.has_wrong_settings() && !server.is_known(path) && is_there(files, path)
}

fn is_there(files: &impl Files, path: &str) -> bool {
    match kind_of(files, path) {
        Kind::Nothing => false,
        Kind::File | Kind::Folder => true,
    }
}

// Gives a file, unless it was not known and does not have the name of a template.
fn give_template<F: Files + Input + AllocGlobal>(
    files: &F,
    server: &mut Server,
    path: &str,
) -> Result<(), AllocError>
    ensures given { OnOk result (AreGiven (NeedsChanged path.now) server.old server.new) }
    ensures in_part { OnErr result (AreGivenInPart (NeedsChanged path.now) server.old server.new) }
{
    if is_needed(files.alloc(), server, path)? {
        give_single(files, server, path)
    } else {
        Ok(())
    }
}

// Gives that there is nothing under a path now, where a known file was, or what may have been a folder.
fn give_gone<F: Files + Input + AllocGlobal>(
    files: &F,
    server: &mut Server,
    path: &str,
) -> Result<(), AllocError>
    ensures given { OnOk result (AreGiven (NeedsChanged path.now) server.old server.new) }
    ensures in_part { OnErr result (AreGivenInPart (NeedsChanged path.now) server.old server.new) }
{
    if server.is_known(path) {
        give_single(files, server, path)
    } else {
        give_known(files, server, path)
    }
}

fn is_needed(alloc: Global, server: &Server, path: &str) -> Result<bool, AllocError>
    ensures { IfOk result (λ needed. needed ≡ false → is_known server.now.known path.now ≡ false) }
{
    if server.is_known(path) {
        return Ok(true);
    }
    is_named_so(alloc, server, path)
}

// Whether the file has the name of a template, by the settings for it.
fn is_named_so(alloc: Global, server: &Server, path: &str) -> Result<bool, AllocError> {
    let extensions = extensions_for(alloc, server, path)?;
    Ok(ends_in(path, extensions.as_slice()))
}

// The extensions of templates, by the settings for a file or a folder.
fn extensions_for<'s>(
    alloc: Global,
    server: &'s Server,
    path: &str,
) -> Result<Vec<&'s str>, AllocError>
    ensures { IfOk result (λ extensions. texts extensions.items ≡ extensions_in server.now path.now) }
{
    let mut extensions = Vec::new(alloc);
    let Some(given) = extensions_given(server, path) else {
        extensions.extend_from_slice(EXTENSIONS.as_slice())?;
        return Ok(extensions);
    };
    for extension in given {
        extensions.push(extension.as_str())?;
    }
    Ok(extensions)
}

// .. if the settings name them.
fn extensions_given<'s>(server: &'s Server, path: &str) -> Option<&'s Vec<String>>
    ensures { unwrap_or (option_map (λ given. map string_bytes given.now.items) result) extensions
        ≡ extensions_in server.now path.now }
{
    server.settings_for(path)?.extensions.as_ref()
}

// Gives a file; without a text, if it is left out when the folders are read.
fn give_single<F: Files + Input + AllocGlobal>(
    files: &F,
    server: &mut Server,
    path: &str,
) -> Result<(), AllocError>
    ensures loaded { OnOk result (IsLoaded path.now server.old server.new) }
    ensures unloaded { OnErr result (IsUnloaded path.now server.old server.new) }
{
    if is_aside(files, server, path) || is_excluded_in(files, server, path)? {
        return give_nothing(files, server, path);
    }
    give_file(files, server, path)
}

// Gives a file without a text.
fn give_nothing<F: Files + Input + AllocGlobal>(
    files: &F,
    server: &mut Server,
    path: &str,
) -> Result<(), AllocError>
    ensures loaded { OnOk result (IsLoaded path.now server.old server.new) }
    ensures unloaded { OnErr result (IsUnloaded path.now server.old server.new) }
{
    server.load(files.alloc(), path, OnDisk::Nothing)
}

// Whether the settings for the file leave it out.
fn is_excluded_in<F: Files + AllocGlobal>(
    files: &F,
    server: &Server,
    path: &str,
) -> Result<bool, AllocError> {
    match server.settings_for(path) {
        Some(settings) => is_excluded(files, &settings.exclude, path),
        None => Ok(false),
    }
}

// Gives each known file in the folder again, and the files that are there, if the folder is in an open one.
fn give_folder<F: Files + Input + AllocGlobal + Clone + Drop>(
    files: &F,
    server: &mut Server,
    folder: &str,
) -> Result<(), AllocError>
    ensures given { OnOk result (IsFolderGiven folder.now server.old server.new) }
    ensures in_part { OnErr result (IsFolderGivenInPart folder.now server.old server.new) }
{
    give_known(files, server, folder)?;
    if is_read(files, server.folders(), folder)? {
        give_listed(files, server, folder)
    } else {
        Ok(())
    }
}

// Gives the known files in the folder, as they are now.
fn give_known<F: Files + Input + AllocGlobal>(
    files: &F,
    server: &mut Server,
    folder: &str,
) -> Result<(), AllocError>
    ensures given { OnOk result (AreKnownGiven folder.now server.old server.new) }
    ensures in_part { OnErr result (AreKnownGivenInPart folder.now server.old server.new) }
{
    let known = server.known_inside(files.alloc(), folder)?;
    for path in &known {
        give_again(files, server, path.as_str())?;
    }
    Ok(())
}

// Gives a file that was known; without a text, if it does not count any more.
fn give_again<F: Files + Input + AllocGlobal>(
    files: &F,
    server: &mut Server,
    path: &str,
) -> Result<(), AllocError>
    ensures loaded { OnOk result (IsLoaded path.now server.old server.new) }
    ensures unloaded { OnErr result (IsUnloaded path.now server.old server.new) }
{
    if still_counts(files.alloc(), server, path)? {
        give_single(files, server, path)
    } else {
        give_nothing(files, server, path)
    }
}

// Whether a file that was known counts still: in an open folder, if it has the name of a template; elsewhere, if it is in
// a library.
fn still_counts(alloc: Global, server: &Server, path: &str) -> Result<bool, AllocError> {
    if is_in_any(server.folders(), path) {
        return is_named_so(alloc, server, path);
    }
    Ok(server.is_in_library(path))
}

fn give_listed<F: Files + Input + AllocGlobal + Clone + Drop>(
    files: &F,
    server: &mut Server,
    folder: &str,
) -> Result<(), AllocError>
    ensures given { OnOk result (AreListedGiven folder.now server.old server.new) }
    ensures in_part { OnErr result (AreListedGivenInPart folder.now server.old server.new) }
{
    let found = listed(files, server, folder, &[folder])?;
    give_files(files, server, &found.files)
}

fn give_files<F: Files + Input + AllocGlobal>(
    files: &F,
    server: &mut Server,
    paths: &Vec<String>,
) -> Result<(), AllocError>
    ensures given { OnOk result (AreLoaded server.old (map string_bytes paths.now.items) server.new) }
    ensures in_part { OnErr result (AreLoadedInPart (map string_bytes paths.now.items) server.old server.new) }
{
    for path in paths {
        give_file(files, server, path.as_str())?;
    }
    Ok(())
}

// The templates that the paths lead to, by the settings of the folder, without those that these leave out.
fn listed<F: Files + AllocGlobal + Clone + Drop>(
    files: &F,
    server: &Server,
    folder: &str,
    paths: &[&str],
) -> Result<Found, AllocError>
    ensures { IfOk result (λ found. AreListed (extensions_in server.now folder.now) (texts paths.now)
        (map string_bytes found.files.items)) }
{
    let extensions = extensions_for(files.alloc(), server, folder)?;
    let selection = Selection {
        extensions: extensions.as_slice(),
        stdin: "-",
    };
    let found = files_of(files, selection, paths)?;
    match server.settings_for(folder) {
        Some(settings) => leave_out_paths(files, &settings.exclude, found),
        None => Ok(found),
    }
}

fn give_file<F: Files + Input + AllocGlobal>(
    files: &F,
    server: &mut Server,
    path: &str,
) -> Result<(), AllocError>
    ensures loaded { OnOk result (IsLoaded path.now server.old server.new) }
    ensures unloaded { OnErr result (IsUnloaded path.now server.old server.new) }
{
    let found = on_disk(files, path)?;
    server.load(files.alloc(), path, found)
}
