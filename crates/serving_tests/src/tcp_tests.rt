// Workers on an office in memory, over a port of the network.
use crate::given::{equal, equal_bytes, made_desk};
use serving::{Binder, OpenGate, Port, PortFault, TcpPort, WorkerEnd, serve};
use std::alloc::Global;
use std::io::{Read, Write};
use std::net::{Net, Shutdown, TcpListener, TcpStream};
use std::process::Abort;
use std::sync::Wait;
use std::thread::Threads;

const MADE: &[u8] =
    b"HTTP/1.1 201 Created\r\ncontent-type: application/json\r\ncontent-length: 17\r\n\r\n{\"bucket\":\"logs\"}";

const BUCKET: &[u8] =
    b"HTTP/1.1 200 OK\r\ncontent-type: application/json\r\ncontent-length: 79\r\n\r\n{\"bucket\":\"logs\",\"rules\":0,\
\"uploads\":0,\"versioning\":\"Unversioned\",\"versions\":0}";

const PUT: &[u8] = b"PUT /buckets/logs HTTP/1.1\r\nHost: x\r\n\r\n";

const GET: &[u8] = b"GET /buckets/logs HTTP/1.1\r\nHost: x\r\n\r\n";

// A connection to a port of this machine that has sent these bytes and sends no more.
fn connected<N, B: Binder + Drop>(net: &N, port: &mut TcpPort<B>, sent: &[&[u8]]) -> TcpStream
where
    N: Net<Listener = TcpListener, Stream = TcpStream> + Abort,
{
    let address = port.local_addr().expect(net, "an address");
    let mut stream = TcpStream::connect(net, address).expect(net, "a connection");
    for bytes in sent {
        stream.write_all(bytes).expect(net, "the bytes are sent");
    }
    stream
        .shutdown(Shutdown::Write)
        .expect(net, "the client sends no more");
    stream
}

fn said_to(rt: &impl Abort, alloc: Global, mut client: TcpStream) -> Vec<u8> {
    let mut said = Vec::new(alloc);
    client.read_to_end(&mut said).expect(rt, "a reply");
    said
}

// One worker serves three connections over a port. Only this function calls `serve`.
fn end_of_serving<P: Port + Send, R: Threads + Wait + Sync + Abort>(
    rt: &R,
    alloc: Global,
    port: &mut P,
) -> WorkerEnd
where
    P::Source: Send,
    P::Replies: Send,
{
    let (desk, end) = serve(rt, alloc, made_desk(rt, alloc), port, &OpenGate, 1, 3);
    drop(desk);
    end
}

// Checks what was said to the client that makes a bucket and asks for it.
fn assert_both(rt: &impl Abort, alloc: Global, client: TcpStream) {
    let said = said_to(rt, alloc, client);
    assert!(rt; said.starts_with(MADE) && said.ends_with(BUCKET));
    equal(rt, &"the first", &said.len(), &(MADE.len() + BUCKET.len()));
}

// The system keeps what a client sends before its connection is accepted, so one thread is enough.
#[test]
fn a_port_of_the_network_serves_connections(rt: HostRuntime) {
    let alloc = rt.alloc();
    let mut port = TcpPort::new(&rt);
    assert!(rt; port.listen(&rt, alloc, "127.0.0.1:0").is_ok());
    let first = connected(&rt, &mut port, &[PUT, GET]);
    // This client is gone before it is served.
    drop(connected(&rt, &mut port, &[GET, GET, GET]));
    let last = connected(&rt, &mut port, &[GET]);
    assert!(rt; end_of_serving(&rt, alloc, &mut port) == WorkerEnd::Done);
    assert_both(&rt, alloc, first);
    equal_bytes(&rt, &"the last", &said_to(&rt, alloc, last), BUCKET);
    drop(port);
}

#[test]
fn a_port_listens_on_an_address(rt: HostRuntime) {
    let alloc = rt.alloc();
    let mut port = TcpPort::new(&rt);
    assert!(rt; port.listen(&rt, alloc, "no address") == Err(PortFault::Failed));
    assert!(rt; port.local_addr().is_err());
    assert!(rt; port.listen(&rt, alloc, "127.0.0.1:0").is_ok());
    assert!(rt; port.local_addr().is_ok());
}
