//! The texts that `moo --help` and `moo COMMAND --help` print, and the version.

pub(crate) const VERSION: &str = "1.1.0";

pub(crate) const FILE: &str =
    "A database file (FILE-wal is a part of it), or :memory: for a new world that is gone at the end";

pub(crate) const BATCHES: &str = "A file of batches, or - for standard input";

pub(crate) const STOP: &str = "End after the first reply that isn't `accepted`, with status 1";

pub(crate) const DUMP_FILE: &str = "A file that `moo dump` wrote, or - for standard input";

pub(crate) const PORT: &str = "The port on 127.0.0.1 to listen on, 1 to 65535";

pub(crate) const COUNT: &str =
    "How many connections to take before it ends, 0 to 1000000; without it, 4294967295";

pub(crate) const TICKS: &str =
    "How many ticks a request has, 1000 to 4294967295; without it, 4000000";

pub(crate) const MOO: &str =
    "Keeps the objects of a text world in a database, and runs batches of calls on them";

pub(crate) const MOO_MORE: &str = "With no words at all it runs `moo apply :memory: -`.

From nothing:
  moo init world.db                                                   make a new world
  printf 'batch as #3\\ncreate(#1)\\nend\\n' | moo apply world.db -      change it
  moo dump world.db                                                   see all of it

A batch: a line `batch as #3` (the programmer; #3 is the wizard of a new world), then one call on each line,
as `create(#1)`, then a line `end`. It acts whole or not at all.

`moo apply --help` lists the calls, the values and the replies. `moo COMMAND --help` says of each command
what it writes, and how it ends.

Exit status: 0 done, and no reply is `fault` or `closed`; 1 a reply is, or `--stop` ended a text early, or
the store, a stream or the port failed; 2 the words are wrong; 3 the world in the file is damaged or of a
newer version, or a text isn't a dump; 4 out of memory. A file that can't be read as a database, or isn't
one of moo, is a store fault, 1.

A file of version 1 is migrated to version 2 when it is opened, by rehearse, ask, dump and check too.

A failure is a line on standard output; standard error says why the store, the batches or the port failed.
If standard output failed, batches may be committed all the same: `moo check FILE` says S.";

pub(crate) const INIT: &str = "Make a new world in FILE, which must hold no tables yet";

pub(crate) const INIT_MORE: &str =
    "The new world has the number 0 and four objects, which #3 owns: #0 \"System Object\", #1 \"Root Class\" (all
may make objects under it), #2 \"The First Room\", and in it #3 \"Wizard\", a wizard, who has every right.

Standard output: `created`.

Exit status: 0 created; 1 `moo: store fault`: FILE has tables already, which stay as they are, or it
can't be written; 4 `moo: no memory`.

Example:
  moo init world.db";

pub(crate) const APPLY: &str =
    "Run the batches of a text, and print a reply for each when it is committed";

pub(crate) const APPLY_MORE: &str =
    "A batch: a line `batch as #N`, then one call on each line, then a line `end`. #N is the programmer, any
object. `batch as #N at M` acts only if the world's number is M. A batch acts whole or not at all. Blank
lines are skipped, and there are no comments. `batch`, `as`, `at` and `end` are in small letters. No call can
use the answer of another: `create` answers max_object() + 1, and `at M` makes sure of that.

Standard output, for each batch:
  accepted S     it is committed as number S; the answers of its calls follow, one on each line, and `end`
  refused K E_NAME   its call K, counted from 1, failed for one of the reasons below
  full K         its call K found no number left for what it makes
  stale S        it asks for another number than S, which the world has
  malformed L    its line L can't be read; the header is line 1, and blank lines count. The line isn't a
                 header as above or a call as below, or is over 262,144 bytes, or is the 1,001st call. Or it
                 has a value that can't be read: an integer over 64 bits, the number of an object over 32, a
                 list over 32 deep, a text over 65,535 bytes, without its end, or with other bytes than tabs,
                 spaces and printing ASCII. All lines up to the next `end` are skipped; if that is missing,
                 the next batch is skipped with them.
  truncated      the text ended inside it
  nomemory       out of memory in it
  fault          the store failed in it; the reply to each batch after it is `closed`
Only an accepted batch changes the world; one with `fault` may be committed too: `moo check FILE` says S. The
batches after a refused one are run all the same; with `--stop` nothing after the first reply that isn't
`accepted` is run. `moo rehearse` prints the same and changes nothing. Each accepted batch counts, even if it
only reads: `moo ask` looks without counting.

Values: 12 and -5; objects #4, and #-1 for no object; texts \"a \\\"b\\\" c\"; errors E_PERM; lists
{1, {#2, \"a\"}}. Numbers other than 0 are true, and texts and lists that aren't empty.

Calls, in any case of letters. O, A, B, PARENT, OWNER and PLACE are objects, V is any value, N is a number,
and the others are texts; VERB may be a number. A call answers 0 if nothing else is said.
  create(PARENT), create(PARENT, OWNER)   makes and answers an object; it owns itself if OWNER is #-1
  recycle(O)                      destroys O: its children get its parent, and what it holds goes nowhere
  valid(O), max_object()          1 if O is an object, else 0; the greatest number that an object was given
  chparent(O, PARENT)             O inherits from PARENT, or from nothing if that is #-1; O and all under it
                                  lose the properties that they no longer inherit
  parent(O), children(O)          its parent; the objects whose parent it is
  move(O, PLACE)                  O goes into PLACE, or nowhere if that is #-1
  set_accept(O, {A, B ..})        O accepts A, B .. and what is under one of them; without a list, as after
                                  set_accept(O, 0), it accepts what its parent does, or nothing
  accept_list(O)                  that list, or 0 if O has no list of its own
  set_player_flag(O, V)           O is a player if V is true, else it isn't
  is_player(O), players()         1 or 0; all players
  get(O, NAME), set(O, NAME, V)   a property, or a built-in one: \"name\", \"owner\", \"programmer\",
                                  \"wizard\", \"r\", \"w\", \"f\", and \"location\" and \"contents\", which move sets
  properties(O)                   the names that O defines
  add_property(O, NAME, V, {OWNER, PERMS})       a new property of O and of all under it
  delete_property(O, NAME)                       O, which defines it, and all under it lose it
  property_info(O, NAME)                         {OWNER, PERMS}
  set_property_info(O, NAME, {OWNER, PERMS})     or {OWNER, PERMS, NEWNAME}
  clear_property(O, NAME), is_clear_property(O, NAME)   it reads as its parent's again; 1 if it does, else 0
  verbs(O)                                                the names of each verb of O itself; no verb is run
  add_verb(O, {OWNER, PERMS, NAMES}, {DOBJ, PREP, IOBJ})  a new verb of O, after the others
  delete_verb(O, VERB)
  verb_info(O, VERB), verb_args(O, VERB)                  {OWNER, PERMS, NAMES}; {DOBJ, PREP, IOBJ}
  set_verb_info(O, VERB, {OWNER, PERMS, NAMES})
  set_verb_args(O, VERB, {DOBJ, PREP, IOBJ})
  petition({{\"CALL\", V ..}, ..})  asks a wizard to make these calls, and answers the number of the petition
  petitions()                     {N, WHO, CALLS} for each petition of one's own, or of anyone for a wizard
  grant(N)                        a wizard makes the calls of petition N, all or none; then it is gone
  decline(N)                      petition N is gone; a wizard may say so, and whoever made it
PERMS of a property: letters of \"rwc\": r all may read it, w all may write it, c the owner of what is under O
owns it there. PERMS of a verb: letters of \"rwxd\": r all may read it, w all may change it, x and d are kept.
Marks of an object: \"r\" all may list its properties and verbs, \"w\" all may add and delete them, \"f\" all may
make objects under it; \"wizard\" has every right; \"programmer\" is kept, and not looked at.
NAMES: \"get take\", or \"foo*bar\" for foo, foob, fooba and foobar. VERB: its place among the verbs, counted
from 1, or a word such as \"take\". DOBJ and IOBJ: \"this\", \"any\" or \"none\". PREP: \"any\", \"none\" or a phrase
such as \"in front of\".

Why a call is refused, E_NAME:
  E_PERM     the programmer has no right there and isn't a wizard, or isn't an object; or nobody may do it:
             \"location\" and \"contents\" can't be set
  E_INVARG   a value that must be an object isn't one, or an owner, a name or letters can't be used there; or
             there is no petition N; or a petition can't ask for this, since it is for 1 to 64 calls that
             aren't of petitions, with lists at most 30 deep
  E_INVIND   get or set of something that isn't an object
  E_PROPNF   O has no such property
  E_VERBNF   O has no such verb
  E_ARGS     too many values, or too few
  E_TYPE     a value of another type than the call takes
  E_QUOTA    the property `ownership_quota` of the new object's owner is used up
  E_RECMOVE  O would be in itself, or under itself
  E_NACC     PLACE doesn't accept O, and the programmer isn't a wizard

Exit status: 0 each batch has its reply, and no reply is `fault` or `closed`; 1 one is, or `--stop` met a
reply that isn't `accepted`, or standard output failed, or the last line is `moo: store fault`,
`moo: read fault` or `moo: input too long`; 3 `moo: damaged KIND KEY` or `moo: newer version`;
4 `moo: no memory`.

Example:
  printf 'batch as #3\\ncreate(#1)\\nset(#4, \"name\", \"Lantern\")\\nend\\n' | moo apply world.db -";

pub(crate) const REHEARSE: &str =
    "Print what `moo apply` would print for a text, and change nothing";

pub(crate) const REHEARSE_MORE: &str =
    "Standard output: what `moo apply` would print, with its numbers. Each batch is judged on the world that the
batches before it would have left. `moo apply --help` lists replies, values and calls. No batch is committed:
nothing is written to FILE, but a file of version 1 is migrated.

`--stop` ends it where `moo apply --stop` would end.

Exit status: that of `moo apply`.

Example:
  moo rehearse --stop world.db build.txt && moo apply --stop world.db build.txt";

pub(crate) const ASK: &str =
    "Print what each batch of a text would answer at present, and change nothing";

pub(crate) const ASK_MORE: &str =
    "Standard output: the replies of `moo apply`. Each batch is judged on the world as it is: no batch sees what
one before it would do. `accepted S` then has the world's present number. `moo apply --help` lists replies,
values and calls.

Exit status: that of `moo apply`.

Example:
  printf 'batch as #3\\nget(#2, \"name\")\\nend\\n' | moo ask world.db -";

pub(crate) const DUMP: &str =
    "Print the world: its number, and each object, property, slot, verb and petition on a line";

pub(crate) const DUMP_MORE: &str = "Standard output:
  seq S                  S batches were accepted
  top #N                 the greatest number that an object was given
  then for each object, in the order of their numbers:
  object {number, name, owner, parent, location, player, programmer, wizard, r, w, f, accept list or 0}
  property {object, name}                                 each that it defines
  slot {object, definer, name, owner, perms, 0}           each clear one, which reads as the parent's
  slot {object, definer, name, owner, perms, 1, value}    each that is set
  verb {object, names, owner, perms, dobj, prep, iobj}    each, in their order
  then for each petition, in the order of their numbers:
  petition {number, who made it, calls}
  and last:
  end
Marks are 1 or 0, and values are as in a batch. Slots are in the order of their definers, from the object up.

Exit status: 0 written whole; 1 `moo: store fault`, or standard output failed; 3 `moo: damaged KIND KEY`
or `moo: newer version`; 4 `moo: no memory`.

Example:
  moo dump world.db > world.txt";

pub(crate) const LOAD: &str = "Make a new world in FILE from a dump; FILE must hold no tables yet";

pub(crate) const LOAD_MORE: &str =
    "The new world is the one that DUMP shows, with its number, its objects and its petitions: a dump of it is
DUMP again, byte for byte. Another text than a dump is refused. The next petition gets the number after the
greatest in DUMP.

It is written in one transaction: FILE has no tables after a refusal, or the whole world. With `:memory:` in
place of FILE it is a trial that writes nothing.

Standard output: `loaded seq S objects N`.

Exit status: 0 loaded; 1 `moo: store fault`: FILE has tables already, which stay as they are, or it can't be
written; or `moo: read fault`, or `moo: input too long`: DUMP is over 1,073,741,824 bytes, or standard output
failed; 3 `moo: not a dump, line L`: no dump has a line such as line L there, counted from 1; or
`moo: damaged KIND KEY`: all lines can be read, but they show no world; 4 `moo: no memory`.
Objects and petitions have their numbers in KEY; properties and verbs are counted from 1, in DUMP's order.
Standard error names the line of DUMP, and what is wrong with it.

Example:
  moo dump world.db > world.txt
  moo load new.db world.txt";

pub(crate) const CHECK: &str = "Test that FILE holds a whole world; it repairs nothing";

pub(crate) const CHECK_MORE: &str =
    "Standard output: `ok seq S objects N`, or the first damage, as `moo: damaged missing-slot #6 p1`.

Exit status: 0 whole; 1 `moo: store fault`, also if the file can't be read as a database at all;
3 `moo: damaged KIND KEY` or `moo: newer version`; 4 `moo: no memory`.

Example:
  moo check world.db";

pub(crate) const SERVE: &str = "Answer HTTP requests on 127.0.0.1:PORT, one a connection";

pub(crate) const SERVE_MORE: &str =
    "Standard output: `listening 127.0.0.1:PORT` once FILE is open and the port is bound; at the end, after COUNT
connections, `served A failed F`. Without COUNT that is after 4,294,967,295 connections.

A request to /batch, /ask or /each has N ticks, 4000000 without --ticks. A row looked up, put or removed takes
one, and so do a value of an answer and 64 bytes of a string. What spends more is answered 503 nomemory.

POST /batch runs a batch, POST /ask says what it would answer, and POST /each what each of its calls alone
would. The body is JSON, with calls as in a text:
  {\"as\":\"#3\",\"calls\":[\"create(#1)\"]}, and \"at\":17, a bare number, to act only on a world with number 17
Other keys are ignored: a mistyped \"at\" guards nothing. GET /seq answers the number, and GET /object/5 the
built-in properties of #5, its children and its contents. GET /objects/5 lists objects from #5
on, and GET /dump is what `moo dump` writes. With ?why after /batch, /ask or /each a refusal says why.
Answers are JSON, but for a dump:
  200 {\"answers\":[\"#4\",\"{1, 2}\"],\"seq\":18}   each answer a string, as in a text; or what GET asks
  409 {\"call\":K,\"error\":\"E_PERM\"} or {\"error\":\"stale\",\"seq\":S}     it is refused, and changed nothing
  400 {\"error\":\"bad request\"} or {\"call\":K,\"error\":\"malformed\"}; 413 its body is over 1,048,576 bytes
  404 no such path, or no such object; 405 the path has another method; 503 nomemory, fault or closed
  403 the page of a browser sent it
All of these count in A. A connection that breaks off or is silent for 10 seconds counts in F.

While it runs no other command can open FILE. A signal ends it early, and what it answered is kept. Nobody is
asked who they are: let no one else on this machine reach the port.

Exit status: 0 all connections were taken; 1 `moo: cannot listen`, `moo: store fault`, or standard
output failed; 3 `moo: damaged KIND KEY` or `moo: newer version`; 4 `moo: no memory`.

Example:
  moo serve world.db 8080 1000
  curl -d '{\"as\":\"#3\",\"calls\":[\"create(#1)\"]}' http://127.0.0.1:8080/batch";
