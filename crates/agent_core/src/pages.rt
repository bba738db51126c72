//! The page that shows the ring. It requests `/members` and the head of `/ring` each second and `/healthz` every fifth, and draws the servers'
//! points at their places on the ring: each point owns the keys between the point before it and itself. It links each member to the
//! page of its agent, whose port it takes to be as far from the node's as this agent's is, and marks each whose agent has
//! another digest in two looks one after the other. While this agent does not answer, what it told is grey.

/// The page that shows the ring, as HTML. From elsewhere it loads the digests of other agents alone.
pub const PAGE: &str = r#"<!doctype html>
<html lang="en"><head><meta charset="utf-8"><meta name="viewport" content="width=device-width">
<title>ringpop</title><link rel="icon" href="data:,">
<style>
:root{color-scheme:light dark;--page:white;--text:rgb(30 30 35);--faint:rgb(105 105 115);--line:rgb(220 220 226);--warn:rgb(160 95 0);--bad:rgb(180 25 25)}
@media(prefers-color-scheme:dark){:root{--page:rgb(22 22 26);--text:rgb(232 232 236);--faint:rgb(155 155 165);--line:rgb(58 58 66);--warn:rgb(240 175 70);--bad:rgb(255 120 110)}}
body{font:15px/1.5 system-ui,sans-serif;margin:2rem auto;max-width:66rem;padding:0 1rem;background:var(--page);color:var(--text)}
h1{font-size:1.4rem;margin:0}
a{color:inherit}
form{margin:0 0 1.2rem}
input{font:inherit;color:inherit;background:var(--page);border:1px solid var(--faint);border-radius:3px;padding:.15rem .4rem;width:16rem;max-width:55%}
output{margin-left:.5rem;font-weight:600}
p{margin:.3rem 0 1rem;color:var(--faint)}
main{display:flex;flex-wrap:wrap;gap:2rem;align-items:flex-start}
svg.ring{flex:1 1 15rem;max-width:320px;height:auto}
svg text{fill:var(--text);font-size:15px;text-anchor:middle}
svg text.small{fill:var(--faint);font-size:12px}
.list{max-width:100%;overflow-x:auto}
table{border-collapse:collapse}
th,td{text-align:left;padding:.2rem .8rem .2rem 0;border-bottom:1px solid var(--line);white-space:nowrap}
th{color:var(--faint);font-weight:normal}
.number{text-align:right;font-variant-numeric:tabular-nums}
.own{font-weight:600}
.suspect{color:var(--warn)}.faulty,.tombstone,.fault{color:var(--bad)}.leave{color:var(--faint)}
.mark{display:inline-block;width:.75rem;height:.75rem;border-radius:2px;background:var(--line)}
.other{color:var(--bad);margin-left:.4rem}
code{font-size:.85em;word-break:break-all}
.gone :is(form,main,#digest,#changed){opacity:.35;filter:grayscale(1)}
@media(max-width:40rem){table{font-size:.85rem}th,td{padding-right:.6rem}.other{display:block;margin:0}}
</style></head><body>
<h1>ringpop <span id="own"></span></h1>
<p><span id="sum" role="status">asking for the members</span><br><span id="well"></span><br><span id="changed"></span></p>
<form id="ask"><label for="key">owner of key</label> <input id="key" autocomplete="off" spellcheck="false"><output id="owner" for="key"></output></form>
<main>
<svg class="ring" id="ring" viewBox="-160 -160 320 320" role="img" aria-label="the ring, with the keys that each member owns"></svg>
<div class="list"><table><thead><tr><th></th><th>member</th><th>status</th><th class="number">share of keys</th><th class="number">weight</th><th class="number">incarnation</th></tr></thead><tbody id="rows"></tbody></table></div>
</main>
<p>digest <code id="digest"></code></p>
<script>
'use strict';
const by=id=>document.getElementById(id);
const serves=m=>m.status==='alive'||m.status==='suspect';
const most=60000;
// What the agent answers; a failure if it takes longer than three seconds.
const get=(path,method)=>fetch(path,{method,cache:'no-store',signal:AbortSignal.timeout(3000)});
// SHA-256 (FIPS 180-4) of a text of less than 56 bytes of ASCII, as a place on the ring from 0 to 1: a page that was not
// asked for at the machine itself has no crypto.subtle.
const K=[],H=[];
for(let n=2;K.length<64;n++){
  if(K.length&&[...Array(n).keys()].some(d=>d>1&&n%d===0))continue;
  const bits=x=>(x-Math.floor(x))*2**32|0;
  K.push(bits(Math.cbrt(n)));
  if(H.length<8)H.push(bits(Math.sqrt(n)));
}
const turn=(x,n)=>x>>>n|x<<32-n;
const words=new Int32Array(64);
function place(text){
  const w=words.fill(0),n=text.length;
  for(let i=0;i<n;i++)w[i>>2]|=text.charCodeAt(i)<<24-8*(i&3);
  w[n>>2]|=128<<24-8*(n&3);
  w[15]=8*n;
  for(let i=16;i<64;i++){
    const x=w[i-15],y=w[i-2];
    w[i]=w[i-16]+(turn(x,7)^turn(x,18)^x>>>3)+w[i-7]+(turn(y,17)^turn(y,19)^y>>>10);
  }
  let [a,b,c,d,e,f,g,h]=H;
  for(let i=0;i<64;i++){
    const s=h+(turn(e,6)^turn(e,11)^turn(e,25))+(e&f^~e&g)+K[i]+w[i]|0;
    const t=(turn(a,2)^turn(a,13)^turn(a,22))+(a&b^a&c^b&c)|0;
    h=g;g=f;f=e;e=d+s|0;d=c;c=b;b=a;a=s+t|0;
  }
  return (H[0]+a>>>0)/2**32+(H[1]+b>>>0)/2**64;
}
function pointsOf(members,replicas){
  const points=[];
  for(const m of members)for(let i=0;i<replicas*m.weight;i++)points.push({at:place(m.address+i),m});
  return points.sort((a,b)=>a.at-b.at);
}
function node(name,attributes,text){
  const made=document.createElementNS('http://www.w3.org/2000/svg',name);
  for(const key in attributes)made.setAttribute(key,attributes[key]);
  if(text!==undefined)made.textContent=text;
  return made;
}
const spot=t=>(140*Math.sin(2*Math.PI*t)).toFixed(2)+' '+(-140*Math.cos(2*Math.PI*t)).toFixed(2);
function drawRing(members,points){
  const ring=by('ring');
  ring.replaceChildren();
  points.forEach((p,i)=>{
    const from=i?points[i-1].at:points[points.length-1].at-1;
    p.m.share+=p.at-from;
    p.m.path+=p.at-from<1?`M${spot(from)}A140 140 0 ${p.at-from>.5?1:0} 1 ${spot(p.at)}`:'M0-140A140 140 0 0 1 0 140A140 140 0 0 1 0-140';
  });
  for(const m of members){
    if(!m.path)continue;
    const arc=node('path',{d:m.path,stroke:m.color,'stroke-width':30,fill:'none'});
    arc.append(node('title',{},`${m.address}: ${(100*m.share).toFixed(1)} %`));
    ring.append(arc);
  }
  const serving=members.filter(serves).length;
  ring.append(node('text',{y:-2},serving?serving+' serving':'nobody serves'));
  ring.append(node('text',{y:18,class:'small'},points.length?points.length+' points':serving?'too many points to draw':''));
}
function drawRows(members,own,known){
  by('rows').replaceChildren(...members.map(m=>{
    const row=document.createElement('tr');
    row.className=m.status+(m.address===own?' own':'');
    const mark=document.createElement('span');
    mark.className='mark';
    if(m.color)mark.style.background=m.color;
    row.insertCell().append(mark);
    const name=row.insertCell();
    name.append(m.address===own?own:link(m.address,own));
    name.append(otherMark(m.address));
    row.insertCell().textContent=m.status;
    for(const text of [!serves(m)?'':known?(100*m.share).toFixed(1)+' %':'?',m.weight,m.incarnation]){
      const cell=row.insertCell();
      cell.className='number';
      cell.textContent=text;
    }
    return row;
  }));
}
function draw(view){
  const members=view.members,serving=members.filter(serves);
  for(const m of members){m.share=0;m.path='';m.color=''}
  serving.forEach((m,i)=>{m.color=`hsl(${Math.round(i*137.508%360)} 65% ${i%2?45:58}%)`});
  const count=serving.reduce((sum,m)=>sum+view.replicas*m.weight,0);
  drawRing(members,count<=most?pointsOf(serving,view.replicas):[]);
  drawRows(members,view.address,count<=most);
}
// The page of another agent, by the rule that each has its port for HTTP as far from its node's as this one.
function link(address,own){
  const made=document.createElement('a'),[ip,port]=address.split(':');
  made.href=`http://${ip}:${port-own.split(':')[1]+ +location.port}/`;
  made.textContent=address;
  return made;
}
// What the agents of other members answered: their digests, and since how many looks in a row these are not this agent's.
const others=new Map();
function otherMark(address){
  const made=document.createElement('span'),told=others.get(address);
  made.dataset.of=address;
  made.className='other';
  if(told&&told.looks>1){made.textContent='\u2260 digest';made.title=`its agent holds other members: ${told.digest}`}
  return made;
}
// Each page looks for itself: a digest is all that an agent tells the page of another one.
async function lookAtOther(address,own){
  const told=others.get(address)||{looks:0};
  try{
    const answer=await fetch(new URL('digest',link(address,own).href),{cache:'no-store',signal:AbortSignal.timeout(2000)});
    told.digest=(await answer.text()).trim();
    told.looks=answer.ok&&told.digest!==by('digest').textContent?told.looks+1:0;
  }catch{told.looks=0}
  others.set(address,told);
  for(const mark of document.querySelectorAll('.other'))if(mark.dataset.of===address)mark.replaceWith(otherMark(address));
}
let turnOf=0;
// Eight of the members that serve are looked at in turn, so that a page on a large cluster asks no more than that each second.
function lookAtOthers(members,own){
  const asked=members.filter(m=>serves(m)&&m.address!==own);
  for(let i=0;i<Math.min(8,asked.length);i++)lookAtOther(asked[turnOf++%asked.length].address,own);
}
const say=(id,text,isFault)=>{by(id).textContent=text;by(id).className=isFault?'fault':''};
function ago(since){
  const seconds=Math.max(0,Math.round((Date.now()-since)/1000));
  return seconds<120?seconds+' s':seconds<7200?Math.round(seconds/60)+' min':Math.round(seconds/3600)+' h';
}
// A time of today, or of another day with its date.
const clock=time=>(time.toDateString()===new Date().toDateString()?'':time.toLocaleDateString()+' ')+time.toTimeString().slice(0,8);
let asked=0;
async function askOwner(){
  const key=by('key').value,mine=++asked;
  if(!key)return say('owner','');
  try{
    const answer=await get('owner/'+encodeURIComponent(key));
    const text=answer.ok?(await answer.json()).owners[0]:await answer.text();
    if(mine===asked)say('owner',text,!answer.ok);
  }catch(error){say('owner',error.message,true)}
}
by('key').addEventListener('input',askOwner);
by('ask').addEventListener('submit',event=>event.preventDefault());
async function lookAtHealth(){
  try{
    const answer=await get('healthz'),text=(await answer.text()).trim();
    say('well',answer.ok?'the node serves, and its service is up':text,!answer.ok);
  }catch{say('well','')}
  setTimeout(lookAtHealth,5000);
}
let drawn='';
function show(view){
  const counts={};
  for(const m of view.members)counts[m.status]=(counts[m.status]||0)+1;
  if(drawn!==view.digest){draw(view);drawn=view.digest;askOwner()}
  lookAtOthers(view.members,view.address);
  by('own').textContent=view.address;
  by('digest').textContent=view.digest;
  document.title='ringpop '+view.address;
  say('sum',Object.entries(counts).map(([status,n])=>n+' '+status).join(', ')+'; '+view.replicas+' points for a unit of weight');
}
let changed=null;
// When the ring last changed, as the agent said: suspicions and refutations do not change it.
function showChange(){
  const since=new Date(changed);
  say('changed',changed?`the ring last changed at ${clock(since)}, ${ago(since)} ago`:'');
}
async function ask(){
  const [members,ring]=await Promise.all([get('members'),get('ring','HEAD')]);
  return {ok:members.ok,members:await (members.ok?members.json():members.text()),changed:ring.headers.get('last-modified')};
}
let lost=null;
async function look(){
  const at=new Date(),told=await ask().catch(()=>null);
  setTimeout(look,1000);
  lost=told?null:lost||at;
  document.body.className=told?'':'gone';
  if(told)changed=told.changed;
  showChange();
  if(!told){say('well','');say('sum','this agent does not answer since '+clock(lost),true)}
  else if(told.ok)show(told.members);
  else say('sum',told.members,true);
}
look();
lookAtHealth();
</script></body></html>
"#;
