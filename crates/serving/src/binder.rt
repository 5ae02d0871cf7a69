// What binds the listener of a port.
ghost use Rattle.std.specs.Prelude.{◌≡◌, IfSome, List, None, OnOk, Option, Some, ℕ};

use std::io;
use std::net::{Net, TcpListener, TcpStream};

/// Binds listeners to TCP addresses. It may report the address that it bound last.
pub trait Binder: Sized {
    /// The address that was bound last, if one was; `None` if the binder does not report it.
    ghost bound: { Self → Option (Option (List ℕ)) };

    /// Binds a listener to an address.
    fn bind(&mut self, address: &str) -> io::Result<TcpListener>
        ensures { OnOk result (IfSome (bound self.new) (λ last. last ≡ Some address.now)) };

    /// Makes another binder, which reports the same.
    fn twin(&self) -> Self
        ensures { bound result ≡ bound self.now };
}

/// Binds on a network, and does not report the address.
#[derive(Drop)]
pub struct NetBinder<'a, N: Net<Listener = TcpListener, Stream = TcpStream>> {
    net: &'a N,
}

impl<'a, N: Net<Listener = TcpListener, Stream = TcpStream>> NetBinder<'a, N> {
    /// Makes a binder on this network.
    pub fn new(net: &'a N) -> Self {
        NetBinder { net }
    }
}

impl<'a, N: Net<Listener = TcpListener, Stream = TcpStream>> Binder for NetBinder<'a, N> {
    ghost bound = { λ _. None };

    fn bind(&mut self, address: &str) -> io::Result<TcpListener> {
        TcpListener::bind(self.net, address)
    }

    fn twin(&self) -> Self {
        NetBinder { net: self.net }
    }
}
