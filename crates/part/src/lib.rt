#![tactic(auto)]
// The channels and fans of the chip, by name, and what there is one of for each of them.
ghost use Rattle.std.specs.Prelude.{◌≡◌};
ghost use Rattle.part.specs.Each.{of_channel, of_fan};

#[derive(Clone, Copy, Debug, PartialEq, Eq)]
pub enum ChannelId {
    Local,
    Remote1,
    Remote2,
}

#[derive(Clone, Copy, Debug, PartialEq, Eq)]
pub enum FanId {
    One,
    Two,
}

// One of something for each channel.
#[derive(Clone, Copy, Default)]
pub struct PerChannel<T> {
    pub local: T,
    pub remote1: T,
    pub remote2: T,
}

// One of something for each fan.
// Stays: a twin of PerChannel; one type for both would hold an array, and the theorems state each by its field's name.
#[derive(Clone, Copy, Default)]
pub struct PerFan<T> {
    pub one: T,
    pub two: T,
}

impl<T> PerChannel<T> {
    // The same for each channel.
    pub fn all(value: T) -> PerChannel<T>
    where
        T: Copy,
        ensures { result ≡ record { local = value; remote1 = value; remote2 = value } }
    {
        PerChannel {
            local: value,
            remote1: value,
            remote2: value,
        }
    }

    // A channel's.
    pub fn get(self, c: ChannelId) -> T
    where
        T: Copy,
        ensures { result ≡ of_channel c self }
    {
        match c {
            ChannelId::Local => self.local,
            ChannelId::Remote1 => self.remote1,
            ChannelId::Remote2 => self.remote2,
        }
    }

    // Another, made of each channel's by a function.
    pub fn map<U, F: Fn(ChannelId, T) -> U>(self, f: F) -> PerChannel<U>
    where
        F: Drop,
        requires local { F.pre f ChannelId.Local self.local }
        requires remote1 { F.pre f ChannelId.Remote1 self.remote1 }
        requires remote2 { F.pre f ChannelId.Remote2 self.remote2 }
        ensures local { F.post f ChannelId.Local self.local result.local }
        ensures remote1 { F.post f ChannelId.Remote1 self.remote1 result.remote1 }
        ensures remote2 { F.post f ChannelId.Remote2 self.remote2 result.remote2 }
    {
        PerChannel {
            local: f(ChannelId::Local, self.local),
            remote1: f(ChannelId::Remote1, self.remote1),
            remote2: f(ChannelId::Remote2, self.remote2),
        }
    }
}

impl<T> PerFan<T> {
    // The same for each fan.
    pub fn all(value: T) -> PerFan<T>
    where
        T: Copy,
        ensures { result ≡ record { one = value; two = value } }
    {
        PerFan {
            one: value,
            two: value,
        }
    }

    // A fan's.
    pub fn get(self, f: FanId) -> T
    where
        T: Copy,
        ensures { result ≡ of_fan f self }
    {
        match f {
            FanId::One => self.one,
            FanId::Two => self.two,
        }
    }

    // Another, made of each fan's by a function.
    pub fn map<U, F: Fn(FanId, T) -> U>(self, f: F) -> PerFan<U>
    where
        F: Drop,
        requires one { F.pre f FanId.One self.one }
        requires two { F.pre f FanId.Two self.two }
        ensures one { F.post f FanId.One self.one result.one }
        ensures two { F.post f FanId.Two self.two result.two }
    {
        PerFan {
            one: f(FanId::One, self.one),
            two: f(FanId::Two, self.two),
        }
    }
}
